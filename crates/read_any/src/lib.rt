// One call for the six kinds of bytes that a peer or a disk hands over, and the line that the reading program prints.

#![tactic(auto)]

ghost use Rattle.std.specs.Prelude.{◌≡◌, ◌↔◌};
ghost use Rattle.std.proofs.Math.Option.{some};
ghost use Rattle.format.specs.Messages as messages;
ghost use Rattle.format.specs.Layout.{encode};
ghost use Rattle.format.specs.Rules.{Valid};
ghost use Rattle.format.specs.Decoding.{message, reply};
ghost use Rattle.format.specs.MetOrder.{decode};
ghost use Rattle.format.specs.Tables.{lookup};
ghost use Rattle.read_any.specs.AnyAnswers.{kind_of, answer_in, AnswerPlaced};
ghost use Rattle.read_any.specs.AnyAnswers.{code_of, summary_of, letters, lettered_of};

use met::{KnownMet, PartMet, ServerMet, read_known_met, read_part_met, read_server_met};
use packets::{Link, Packet, read_packet};
use wire::Rule;

#[derive(Clone, Copy)]
pub enum Kind {
    ServerLink,
    ClientLink,
    UdpLink,
    KnownMet,
    ServerMet,
    PartMet,
}

// What was read, with its places in the lent bytes; a part.met with its size.
#[derive(Clone, Copy)]
pub enum Message {
    Packet(Packet),
    KnownMet(KnownMet),
    ServerMet(ServerMet),
    PartMet(PartMet, u32),
}

// What the bytes of a kind are. The clauses: the answer is the format's (`meaning`); each list lies where the answer says
// (`placed`); a message is the answer exactly when it is valid and the bytes are its encoding (`demand3`); and beside that,
// no bytes are those of two valid messages of one kind (`unambiguous`, a law of the format alone).
#[tactic(auto, using(format::proofs::Acceptance::unambiguous))]
pub fn read(kind: Kind, s: &[u8]) -> Result<Message, Rule>
    ensures meaning { answer_in (kind_of kind) s.now result ≡ some (reply (decode (kind_of kind) s.now)) }
    ensures placed { AnswerPlaced s.now result }
    ensures demand3 { (m : messages.Message (kind_of kind)) →
        (answer_in (kind_of kind) s.now result ≡ some (message m)) ↔ ((s.now ≡ encode (kind_of kind) m) × Valid (kind_of kind) m) }
    ensures unambiguous { (m n : messages.Message (kind_of kind)) →
        Valid (kind_of kind) m → Valid (kind_of kind) n → encode (kind_of kind) m ≡ encode (kind_of kind) n → m ≡ n }
{
    match kind {
        Kind::ServerLink => read_packet(s, Link::Server).map(Message::Packet),
        Kind::ClientLink => read_packet(s, Link::Client).map(Message::Packet),
        Kind::UdpLink => read_packet(s, Link::Udp).map(Message::Packet),
        Kind::KnownMet => read_known_met(s).map(Message::KnownMet),
        Kind::ServerMet => read_server_met(s).map(Message::ServerMet),
        Kind::PartMet => read_part_met(s).map(|(part, size)| Message::PartMet(part, size)),
    }
}

// What the reading program says of some bytes: the number of a refusal; or 0, the opcode or opening byte, and the length. It is no Result:
// the edit refusal_with_a_length tells a refusal with a length, which a Result could not.
#[derive(Clone, Copy)]
pub struct Summary {
    pub number: u8,
    pub code: u8,
    pub length: usize,
}

// Not a conversion: this byte of a message is not all of it.
fn code_of(m: Message) -> u8
    ensures { result ≡ code_of m }
{
    match m {
        Message::Packet(p) => p.opcode,
        Message::KnownMet(k) => k.opening,
        Message::ServerMet(v) => v.opening,
        Message::PartMet(p, _) => match p {
            PartMet::E0(_) => 0xE0,
            PartMet::E1(_) => 0xE1,
        },
    }
}

#[tactic(auto, using(crate::proofs::Lines::line_is))]
pub fn summarize(kind: Kind, s: &[u8]) -> Summary
    ensures { result ≡ summary_of (kind_of kind) s.now }
{
    match read(kind, s) {
        Ok(m) => Summary {
            number: 0,
            code: code_of(m),
            length: s.len(),
        },
        Err(rule) => Summary {
            number: rule.number(),
            code: 0,
            length: 0,
        },
    }
}

// The kind for a letter that the reading program takes. Only that program has letters, so that this is no `TryFrom`.
pub fn kind_of_letter(letter: u8) -> Option<Kind>
    ensures { lettered_of result ≡ lookup letters letter }
{
    match letter {
        b's' => Some(Kind::ServerLink),
        b'c' => Some(Kind::ClientLink),
        b'u' => Some(Kind::UdpLink),
        b'k' => Some(Kind::KnownMet),
        b'v' => Some(Kind::ServerMet),
        b'p' => Some(Kind::PartMet),
        _ => None,
    }
}
