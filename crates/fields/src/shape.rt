// The numbers by which the fields of a packet name the shape of its body (ED2K_BODY_.. in include/ed2k.h), and those of a part.met
// the hash lists that it has (ED2K_HASHES_..).
pub const NOTHING: u64 = 0;

pub const QUERY: u64 = 1;

pub const HASH: u64 = 2;

pub const DWORD: u64 = 3;

pub const TWO_DWORDS: u64 = 4;

pub const TEXT: u64 = 5;

pub const TWO_TEXTS: u64 = 6;

pub const ADDRESS: u64 = 7;

pub const ADDRESSES: u64 = 8;

pub const HASH_ADDRESSES: u64 = 9;

pub const ADDRESS_DWORD: u64 = 10;

pub const HASH_ADDRESS_TAGS: u64 = 11;

pub const RECORD: u64 = 12;

pub const RECORDS: u64 = 13;

pub const RECORDS_FLAG: u64 = 14;

pub const RECORD_ADDRESS: u64 = 15;

pub const HELLO: u64 = 16;

pub const HASH_TEXT: u64 = 17;

pub const HASHSET: u64 = 18;

pub const SENDING_PART: u64 = 19;

pub const REQUEST_PARTS: u64 = 20;

pub const FILE_STATUS: u64 = 21;

pub const STATUS_REQUEST: u64 = 22;

pub const STATUS: u64 = 23;

pub const EXTENDED_STATUS: u64 = 24;

pub const NO_HASHES: u64 = 0;

pub const PART_HASHES: u64 = 1;

pub const BLOCK_HASHES: u64 = 2;

pub const BOTH_HASHES: u64 = 3;

pub const COUNTED_HASHES: u64 = 4;
