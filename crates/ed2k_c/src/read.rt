// The calls that read.
ghost use Rattle.std.specs.Prelude.{◌≡◌};
ghost use Rattle.format.specs.Tables.{lookup};
ghost use Rattle.format.specs.Rules.{spec_part_count, spec_block_count};
ghost use Rattle.format.specs.Order.{decode_address};
ghost use Rattle.ed2k.specs.Calls.{numbered, kinds, ReadOf, TagRead, address_read, RecordRead, FileEntryRead, ServerEntryRead, NodeRead};

#[unsafe(no_mangle)]
pub extern "C" fn ed2k_read(kind: u8, bytes: &[u8], fields: &mut [u64]) -> u8
    ensures { ReadOf (lookup kinds kind) bytes.now fields.old (numbered result fields.new) }
{
    ed2k::ed2k_read(kind, bytes, fields)
}

#[unsafe(no_mangle)]
pub extern "C" fn ed2k_read_tag(bytes: &[u8], at: usize, fields: &mut [u64]) -> u8
    ensures { TagRead bytes.now at fields.old (numbered result fields.new) }
{
    ed2k::ed2k_read_tag(bytes, at, fields)
}

#[unsafe(no_mangle)]
pub extern "C" fn ed2k_read_address(bytes: &[u8], at: usize, fields: &mut [u64]) -> u8
    ensures { numbered result fields.new ≡ address_read (decode_address bytes.now at) fields.old }
{
    ed2k::ed2k_read_address(bytes, at, fields)
}

#[unsafe(no_mangle)]
pub extern "C" fn ed2k_read_record(bytes: &[u8], at: usize, fields: &mut [u64]) -> u8
    ensures { RecordRead bytes.now at fields.old (numbered result fields.new) }
{
    ed2k::ed2k_read_record(bytes, at, fields)
}

#[unsafe(no_mangle)]
pub extern "C" fn ed2k_read_file_entry(bytes: &[u8], at: usize, fields: &mut [u64]) -> u8
    ensures { FileEntryRead bytes.now at fields.old (numbered result fields.new) }
{
    ed2k::ed2k_read_file_entry(bytes, at, fields)
}

#[unsafe(no_mangle)]
pub extern "C" fn ed2k_read_server_entry(bytes: &[u8], at: usize, fields: &mut [u64]) -> u8
    ensures { ServerEntryRead bytes.now at fields.old (numbered result fields.new) }
{
    ed2k::ed2k_read_server_entry(bytes, at, fields)
}

#[unsafe(no_mangle)]
pub extern "C" fn ed2k_read_query_node(bytes: &[u8], at: usize, fields: &mut [u64]) -> u8
    ensures { NodeRead bytes.now at fields.old (numbered result fields.new) }
{
    ed2k::ed2k_read_query_node(bytes, at, fields)
}

#[unsafe(no_mangle)]
pub extern "C" fn ed2k_part_count(size: u32) -> u32
    ensures { result ≡ spec_part_count size }
{
    ed2k::ed2k_part_count(size)
}

#[unsafe(no_mangle)]
pub extern "C" fn ed2k_block_count(size: u32) -> u32
    ensures { result ≡ spec_block_count size }
{
    ed2k::ed2k_block_count(size)
}
