// The cursor, and the items that every packet and file is made of: BYTE, WORD, DWORD, HASH, String and name.
//
// A cursor is an offset in bytes that the caller lends. It holds no reference to them: each step is lent the bytes, consumes
// the cursor and returns what it read and a new cursor, after it; or the fault that it found. The bytes are not copied: a hash, a
// text or a list is returned as the offset where it is encoded.
//
// A fault is propagated unchanged, by `?`.
//
// specs/WireAnswers.antt says what each answer stands for; a contract equates that with what the format decodes at the cursor.

#![tactic(auto)]

ghost use Rattle.std.specs.Prelude.{ℕ, List, ◌≡◌, ◌+◌, ◌-◌, ◌*◌, length};
ghost use Rattle.format.specs.Decoding as decoding;
ghost use Rattle.format.specs.Decoding.{Decoder, bytes_at, decode_many, decode_run, ends};
ghost use Rattle.format.specs.Order.{decode_byte, decode_word, decode_dword, decode_hash, decode_string, decode_name, decode_fixed};
ghost use Rattle.wire.specs.WireAnswers.{rule_meaning, number_meaning, hash_meaning, place_meaning, PlaceStepInside, done_meaning, SkipIs, end_meaning, EndsBy, ItemsAre};

// The most bytes that a packet can have, and a query or a tag list alone: `packet_ceiling` in the format's rules.
pub const PACKET_CEILING: usize = 65536;

// The most bytes that a name can have.
const NAME_LIMIT: u16 = 255;

// The size of a HASH.
const HASH_SIZE: usize = 16;

// The rules that bytes can break. Where document 01 gives one number to several rules, they are reported apart here.
#[derive(Clone, Copy)]
pub enum Rule {
    Short,
    Opening,
    FrameLength,
    Kind,
    Choice,
    StatusBit,
    BytesCeiling,
    DepthCeiling,
    NameCeiling,
    GapCeiling,
    Rest,
    Order,
    DataLength,
    SizeTag,
}

impl Rule {
    // The number that a caller of the library gets for a broken rule.
    pub fn number(self) -> u8
        ensures { result ≡ decoding.number (rule_meaning self) }
    {
        match self {
            Rule::Short => 1,
            Rule::Opening => 2,
            Rule::FrameLength => 3,
            Rule::Kind => 4,
            Rule::Choice => 5,
            Rule::StatusBit => 5,
            Rule::BytesCeiling => 6,
            Rule::DepthCeiling => 6,
            Rule::NameCeiling => 6,
            Rule::GapCeiling => 6,
            Rule::Rest => 7,
            Rule::Order => 8,
            Rule::DataLength => 8,
            Rule::SizeTag => 9,
        }
    }
}

// The rule that is broken, where the faulty item begins, and how many bytes it has.
#[derive(Clone, Copy)]
pub struct Fault {
    pub rule: Rule,
    pub at: usize,
    pub size: usize,
}

// A whole input is refused by the rule alone, so that `?` leaves out where the fault is.
impl From<Fault> for Rule {
    ghost from_gives = { λ fault rule. rule ≡ fault.rule };

    fn from(fault: Fault) -> Rule {
        fault.rule
    }
}

#[derive(Clone, Copy)]
pub struct Cursor {
    pub at: usize,
}

// What a step read and the cursor after it, or the fault that it found.
pub type Step<T> = Result<(T, Cursor), Fault>;

// A run of the lent bytes.
#[derive(Clone, Copy)]
pub struct Place {
    pub at: usize,
    pub len: usize,
}

// A list in the lent bytes: where its first item begins, where its last one ends, and how many items there are.
#[derive(Clone, Copy)]
pub struct Items {
    pub at: usize,
    pub end: usize,
    pub count: u32,
}

// Numbers lie low byte first.
pub fn pair(low: u8, high: u8) -> u16
    ensures { result ≡ low + 256 * high }
{
    u16::from_le_bytes([low, high])
}

fn quad(first: u8, second: u8, third: u8, fourth: u8) -> u32
    ensures { result ≡ first + 256 * second + 65536 * third + 16777216 * fourth }
{
    u32::from_le_bytes([first, second, third, fourth])
}

impl Cursor {
    // How many bytes come after the cursor.
    pub fn remaining(self, s: &[u8]) -> usize
        ensures { result ≡ length s.now - self.at }
    {
        let at = self.at;
        s.len().saturating_sub(at)
    }

    // The cursor after an item of `len` bytes. Whether they are there is tested by the length less the item's, so that no sum can
    // wrap, wherever the cursor stands.
    #[inline(always)]
    fn skip(self, s: &[u8], len: usize) -> Result<Cursor, Fault>
        ensures { SkipIs s.now self.at len result }
    {
        let at = self.at;
        if s.len() < len || s.len() - len < at {
            return Err(Fault {
                rule: Rule::Short,
                at,
                size: len,
            });
        }
        Ok(Cursor { at: at + len })
    }

    #[inline]
    pub fn byte(self, s: &[u8]) -> Step<u8>
        ensures { number_meaning result ≡ decode_byte s.now self.at }
    {
        let next = self.skip(s, 1)?;
        Ok((s[self.at], next))
    }

    #[inline]
    pub fn word(self, s: &[u8]) -> Step<u16>
        ensures { number_meaning result ≡ decode_word s.now self.at }
    {
        let at = self.at;
        let next = self.skip(s, 2)?;
        let value = pair(s[at], s[at + 1]);
        Ok((value, next))
    }

    #[inline]
    pub fn dword(self, s: &[u8]) -> Step<u32>
        ensures { number_meaning result ≡ decode_dword s.now self.at }
    {
        let at = self.at;
        let next = self.skip(s, 4)?;
        let value = quad(s[at], s[at + 1], s[at + 2], s[at + 3]);
        Ok((value, next))
    }

    // The offset of a HASH.
    #[inline]
    pub fn hash(self, s: &[u8]) -> Step<usize>
        ensures { hash_meaning s.now result ≡ decode_hash s.now self.at }
    {
        let next = self.skip(s, HASH_SIZE)?;
        Ok((self.at, next))
    }

    // A run of `len` bytes.
    pub fn run(self, s: &[u8], len: usize) -> Step<Place>
        ensures result_value { place_meaning s.now result ≡ decode_run len s.now self.at }
        ensures inside { PlaceStepInside s.now result }
    {
        let next = self.skip(s, len)?;
        Ok((Place { at: self.at, len }, next))
    }

    // A WORD and that many bytes.
    #[tactic(auto, unfolding(format::specs::Order::decode_string))]
    pub fn string(self, s: &[u8]) -> Step<Place>
        ensures result_value { place_meaning s.now result ≡ decode_string s.now self.at }
        ensures inside { PlaceStepInside s.now result }
    {
        let (length, next) = self.word(s)?;
        next.run(s, length as usize)
    }

    // A name is a String of 1 to 255 bytes. Its length is checked before its bytes are read.
    #[tactic(auto, unfolding(format::specs::Order::decode_name))]
    pub fn name(self, s: &[u8]) -> Step<Place>
        ensures result_value { place_meaning s.now result ≡ decode_name s.now self.at }
        ensures inside { PlaceStepInside s.now result }
    {
        let (length, next) = self.word(s)?;
        if length == 0 {
            return Err(Fault {
                rule: Rule::Choice,
                at: self.at,
                size: 2,
            });
        }
        if NAME_LIMIT < length {
            return Err(Fault {
                rule: Rule::NameCeiling,
                at: self.at,
                size: 2,
            });
        }
        next.run(s, length as usize)
    }

    // A byte that the layout fixes.
    #[tactic(auto, unfolding(format::specs::Order::decode_fixed))]
    pub fn fixed(self, s: &[u8], expected: u8) -> Result<Cursor, Fault>
        ensures { done_meaning result ≡ decode_fixed expected s.now self.at }
    {
        let (found, next) = self.byte(s)?;
        if found == expected {
            return Ok(next);
        }
        Err(Fault {
            rule: Rule::Choice,
            at: self.at,
            size: 1,
        })
    }
}

// Items one after the other, each read by itself. A count that is too high ends at the first missing item.
pub fn items_from<T: Copy, F: Fn(Cursor) -> Step<T>>(
    first: Cursor,
    count: u32,
    read: F,
) -> Step<Items>
    requires { F.IsAlwaysCallable read }
    ensures ended { (d : Decoder (Unit {0})) (s : List ℕ) → EndsBy d s (F.post read)
        → end_meaning result ≡ ends (decode_many count d s first.at) }
    ensures list { ItemsAre first.at count result }
{
    let mut next = first;
    for _ in 0..count {
        let (_, after) = read(next)?;
        next = after;
    }
    let at = first.at;
    let end = next.at;
    Ok((Items { at, end, count }, next))
}

// The `len` bytes from the offset on, or as many of them as there are. It takes any numbers, so that no caller has to show that a
// byte range lies inside.
pub fn bytes_at(s: &[u8], at: usize, len: usize) -> &[u8]
    ensures { result.now ≡ bytes_at s.now at len }
{
    if s.len() <= at {
        &s[..0]
    } else {
        if len <= s.len() - at {
            let end = at + len;
            &s[at..end]
        } else {
            &s[at..]
        }
    }
}
