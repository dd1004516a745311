// The opcodes by their published names (source document 000). One byte can mean different packets on different links.

// Server link
pub const HELLO_SERVER: u8 = 0x01;

pub const BAD_PROTOCOL: u8 = 0x05;

pub const GET_SERVER_LIST: u8 = 0x14;

pub const OFFER_FILES: u8 = 0x15;

pub const SEARCH_FILE: u8 = 0x16;

pub const DISCONNECT: u8 = 0x18;

pub const GET_SOURCES: u8 = 0x19;

pub const SEARCH_USER: u8 = 0x1A;

pub const CLIENT_CB_REQUEST: u8 = 0x1C;

pub const MORE_RESULTS: u8 = 0x21;

pub const SERVER_LIST: u8 = 0x32;

pub const SEARCH_FILE_RESULTS: u8 = 0x33;

pub const SERVER_STATUS: u8 = 0x34;

pub const SERVER_CB_REQUEST: u8 = 0x35;

pub const CALLBACK_FAIL: u8 = 0x36;

pub const SERVER_MESSAGE: u8 = 0x38;

pub const ID_CHANGE: u8 = 0x40;

pub const SERVER_INFO_DATA: u8 = 0x41;

pub const FOUND_SOURCES: u8 = 0x42;

pub const SEARCH_USER_RESULTS: u8 = 0x43;

// Client link
pub const HELLO_CLIENT: u8 = 0x01;

pub const SENDING_PART: u8 = 0x46;

pub const REQUEST_PARTS: u8 = 0x47;

pub const NO_SUCH_FILE: u8 = 0x48;

pub const END_OF_DOWNLOAD: u8 = 0x49;

pub const VIEW_FILES: u8 = 0x4A;

pub const VIEW_FILES_ANSWER: u8 = 0x4B;

pub const HELLO_ANSWER: u8 = 0x4C;

pub const NEW_CLIENT_ID: u8 = 0x4D;

pub const MESSAGE: u8 = 0x4E;

pub const FILE_STATUS_REQUEST: u8 = 0x4F;

pub const FILE_STATUS: u8 = 0x50;

pub const HASHSET_REQUEST: u8 = 0x51;

pub const HASHSET_ANSWER: u8 = 0x52;

pub const SLOT_REQUEST: u8 = 0x54;

pub const SLOT_GIVEN: u8 = 0x55;

pub const SLOT_RELEASE: u8 = 0x56;

pub const SLOT_TAKEN: u8 = 0x57;

pub const FILE_REQUEST: u8 = 0x58;

pub const FILE_REQUEST_ANSWER: u8 = 0x59;

pub const QUEUE_RANK: u8 = 0x5C;

// UDP
pub const UDP_SERVER_STATUS_REQUEST: u8 = 0x96;

pub const UDP_SERVER_STATUS: u8 = 0x97;

pub const UDP_SEARCH_FILE: u8 = 0x98;

pub const UDP_SEARCH_FILE_RESULT: u8 = 0x99;

pub const UDP_GET_SOURCES: u8 = 0x9A;

pub const UDP_FOUND_SOURCES: u8 = 0x9B;

pub const UDP_CALLBACK_REQUEST: u8 = 0x9C;

pub const UDP_CALLBACK_FAIL: u8 = 0x9E;

pub const UDP_SERVER_LIST: u8 = 0xA1;

pub const UDP_GET_SERVER_INFO: u8 = 0xA2;

pub const UDP_SERVER_INFO: u8 = 0xA3;

pub const UDP_GET_SERVER_LIST: u8 = 0xA4;
