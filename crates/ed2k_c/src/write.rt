// The call that writes.
ghost use Rattle.format.specs.Tables.{lookup};
ghost use Rattle.ed2k.specs.Calls.{kinds, leaves, WriteOf};

#[unsafe(no_mangle)]
pub extern "C" fn ed2k_write(
    kind: u8,
    bytes: &[u8],
    given: &[u64],
    output: &mut [u8],
    written: &mut usize,
) -> u8
    ensures { WriteOf (lookup kinds kind) bytes.now given.now output.old (leaves result written.new output.new) }
{
    ed2k::ed2k_write(kind, bytes, given, output, written)
}
