// The calls that compose.
ghost use Rattle.std.specs.Prelude.{◌≡◌};
ghost use Rattle.format.specs.Tables.{lookup};
ghost use Rattle.format.specs.Messages.{lone_query, keyword, field, limit, string_type, dword_type, float_type, hash_type};
ghost use Rattle.format.specs.MetOrder.{decode};
ghost use Rattle.format.specs.Truth as format;
ghost use Rattle.wire.specs.WireAnswers.{hash_at};
ghost use Rattle.write_items.specs.There.{hash_there, no_places};
ghost use Rattle.write_items.specs.Item.{WritesTag, tag_of};
ghost use Rattle.write_bodies.specs.RecordEntries.{spec_write_address, spec_write_record};
ghost use Rattle.write_met.specs.MetEntries.{spec_write_file_entry, spec_write_server_entry};
ghost use Rattle.ed2k.specs.Calls.{leaves, items_from, query_from, truth_byte, Chosen, bounds, operators, QueryWritten, TagListWritten, PiecesWritten, JoinWritten};

#[unsafe(no_mangle)]
pub extern "C" fn ed2k_truth(query: &[u8], tags: &[u8], truth: &mut u8) -> u8
    ensures { (result ≡ (format.truth query.now tags.now).number) × (truth.new ≡ truth_byte (format.truth query.now tags.now)) }
{
    ed2k::ed2k_truth(query, tags, truth)
}

#[unsafe(no_mangle)]
pub extern "C" fn ed2k_write_keyword(text: &[u8], output: &mut [u8], written: &mut usize) -> u8
    ensures { PiecesWritten (keyword text.now) output.old (leaves result written.new output.new) }
{
    ed2k::ed2k_write_keyword(text, output, written)
}

#[unsafe(no_mangle)]
pub extern "C" fn ed2k_write_field(
    text: &[u8],
    name: &[u8],
    output: &mut [u8],
    written: &mut usize,
) -> u8
    ensures { PiecesWritten (field text.now name.now) output.old (leaves result written.new output.new) }
{
    ed2k::ed2k_write_field(text, name, output, written)
}

#[unsafe(no_mangle)]
pub extern "C" fn ed2k_write_limit(
    number: u32,
    bound: u8,
    name: &[u8],
    output: &mut [u8],
    written: &mut usize,
) -> u8
    ensures { Chosen (lookup bounds bound) (λ b. PiecesWritten (limit number b name.now) output.old) output.old
        (leaves result written.new output.new) }
{
    ed2k::ed2k_write_limit(number, bound, name, output, written)
}

#[unsafe(no_mangle)]
pub extern "C" fn ed2k_write_join(
    operation: u8,
    left: &[u8],
    right: &[u8],
    output: &mut [u8],
    written: &mut usize,
) -> u8
    ensures { Chosen (lookup operators operation)
        (λ o. JoinWritten o (decode lone_query left.now) (decode lone_query right.now) output.old)
        output.old (leaves result written.new output.new) }
{
    ed2k::ed2k_write_join(operation, left, right, output, written)
}

#[unsafe(no_mangle)]
pub extern "C" fn ed2k_write_text_tag(
    name: &[u8],
    text: &[u8],
    output: &mut [u8],
    written: &mut usize,
) -> u8
    ensures { WritesTag no_places (tag_of name.now string_type text.now) output.old (leaves result written.new output.new) }
{
    ed2k::ed2k_write_text_tag(name, text, output, written)
}

#[unsafe(no_mangle)]
pub extern "C" fn ed2k_write_dword_tag(
    name: &[u8],
    number: u32,
    output: &mut [u8],
    written: &mut usize,
) -> u8
    ensures { WritesTag no_places (tag_of name.now dword_type number) output.old (leaves result written.new output.new) }
{
    ed2k::ed2k_write_dword_tag(name, number, output, written)
}

#[unsafe(no_mangle)]
pub extern "C" fn ed2k_write_float_tag(
    name: &[u8],
    bits: u32,
    output: &mut [u8],
    written: &mut usize,
) -> u8
    ensures { WritesTag no_places (tag_of name.now float_type bits) output.old (leaves result written.new output.new) }
{
    ed2k::ed2k_write_float_tag(name, bits, output, written)
}

#[unsafe(no_mangle)]
pub extern "C" fn ed2k_write_hash_tag(
    name: &[u8],
    hash: &[u8],
    output: &mut [u8],
    written: &mut usize,
) -> u8
    ensures { WritesTag (hash_there hash.now 0) (tag_of name.now hash_type (hash_at hash.now 0)) output.old
        (leaves result written.new output.new) }
{
    ed2k::ed2k_write_hash_tag(name, hash, output, written)
}

#[unsafe(no_mangle)]
pub extern "C" fn ed2k_write_tag_list(
    bytes: &[u8],
    at: usize,
    count: u32,
    output: &mut [u8],
    written: &mut usize,
) -> u8
    ensures { TagListWritten bytes.now (items_from at count) output.old (leaves result written.new output.new) }
{
    ed2k::ed2k_write_tag_list(bytes, at, count, output, written)
}

#[unsafe(no_mangle)]
pub extern "C" fn ed2k_write_query(
    bytes: &[u8],
    at: usize,
    output: &mut [u8],
    written: &mut usize,
) -> u8
    ensures { QueryWritten bytes.now (query_from at) output.old (leaves result written.new output.new) }
{
    ed2k::ed2k_write_query(bytes, at, output, written)
}

#[unsafe(no_mangle)]
pub extern "C" fn ed2k_write_address(
    ip: u32,
    port: u16,
    output: &mut [u8],
    written: &mut usize,
) -> u8
    ensures { leaves result written.new output.new ≡ spec_write_address (record { ip = ip; port = port }) output.old }
{
    ed2k::ed2k_write_address(ip, port, output, written)
}

#[unsafe(no_mangle)]
pub extern "C" fn ed2k_write_record(
    bytes: &[u8],
    hash: usize,
    client: u32,
    port: u16,
    tags_at: usize,
    tag_count: u32,
    output: &mut [u8],
    written: &mut usize,
) -> u8
    ensures { leaves result written.new output.new ≡ spec_write_record bytes.now (record { hash = hash; client = client; port = port; tags = items_from tags_at tag_count }) output.old }
{
    ed2k::ed2k_write_record(
        bytes, hash, client, port, tags_at, tag_count, output, written,
    )
}

#[unsafe(no_mangle)]
pub extern "C" fn ed2k_write_file_entry(
    bytes: &[u8],
    date: u32,
    hash: usize,
    hashes_at: usize,
    hash_count: u32,
    tags_at: usize,
    tag_count: u32,
    output: &mut [u8],
    written: &mut usize,
) -> u8
    ensures { leaves result written.new output.new ≡ spec_write_file_entry bytes.now (record { date = date; hash = hash; parts = items_from hashes_at hash_count; tags = items_from tags_at tag_count }) output.old }
{
    ed2k::ed2k_write_file_entry(
        bytes, date, hash, hashes_at, hash_count, tags_at, tag_count, output, written,
    )
}

#[unsafe(no_mangle)]
pub extern "C" fn ed2k_write_server_entry(
    bytes: &[u8],
    ip: u32,
    port: u16,
    tags_at: usize,
    tag_count: u32,
    output: &mut [u8],
    written: &mut usize,
) -> u8
    ensures { leaves result written.new output.new ≡ spec_write_server_entry bytes.now (record { ip = ip; port = port; tags = items_from tags_at tag_count }) output.old }
{
    ed2k::ed2k_write_server_entry(bytes, ip, port, tags_at, tag_count, output, written)
}
