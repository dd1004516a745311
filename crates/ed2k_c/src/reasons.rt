// The call that says why a packet is refused.
ghost use Rattle.format.specs.Tables.{lookup};
ghost use Rattle.ed2k.specs.Calls.{numbered};
ghost use Rattle.ed2k.specs.WhyCalls.{WhyOf, links};

#[unsafe(no_mangle)]
pub extern "C" fn ed2k_why(kind: u8, bytes: &[u8], why: &mut [u64]) -> u8
    ensures { WhyOf (lookup links kind) bytes.now why.old (numbered result why.new) }
{
    ed2k::ed2k_why(kind, bytes, why)
}
