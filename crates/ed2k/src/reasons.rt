// The call that says why a packet is refused (02, No. 7).
ghost use Rattle.std.specs.Prelude.{◌≡◌};
ghost use Rattle.format.specs.Tables.{lookup};
ghost use Rattle.ed2k.specs.Calls.{numbered, link_kind};
ghost use Rattle.ed2k.specs.WhyCalls.{LinkWhy, WhyOf, links};

use crate::read::hand_out_step;
use crate::{PacketSource, hand_out};
use output::Refusal;
use packets::Link;

fn why_on(link: Link, bytes: &[u8], why: &mut [u64]) -> u8
    ensures { LinkWhy (link_kind link) bytes.now why.old (numbered result why.new) }
{
    let mut packet: [u64; 16] = [0; 16];
    let mut reason: [u64; 4] = [0; 4];
    hand_out_step(PacketSource::Read(link), bytes, &mut packet, &mut reason);
    hand_out(&reason, why)
}

pub fn ed2k_why(kind: u8, bytes: &[u8], why: &mut [u64]) -> u8
    ensures { WhyOf (lookup links kind) bytes.now why.old (numbered result why.new) }
{
    match kind {
        0 => why_on(Link::Server, bytes, why),
        1 => why_on(Link::Client, bytes, why),
        2 => why_on(Link::Udp, bytes, why),
        _ => Refusal::Kind.number(),
    }
}
