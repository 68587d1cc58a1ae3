//! AVP Codes, by the names of the RFCs.

/// RFC 6733, section 4.5; its AVPs below 256 are those of RADIUS (RFC 2865).
pub const CLASS: u32 = 25;

pub const SESSION_TIMEOUT: u32 = 27;

pub const HOST_IP_ADDRESS: u32 = 257;

pub const AUTH_APPLICATION_ID: u32 = 258;

pub const ACCT_APPLICATION_ID: u32 = 259;

pub const SESSION_ID: u32 = 263;

pub const ORIGIN_HOST: u32 = 264;

pub const VENDOR_ID: u32 = 266;

pub const RESULT_CODE: u32 = 268;

pub const PRODUCT_NAME: u32 = 269;

pub const MULTI_ROUND_TIME_OUT: u32 = 272;

pub const DISCONNECT_CAUSE: u32 = 273;

pub const AUTH_REQUEST_TYPE: u32 = 274;

pub const ORIGIN_STATE_ID: u32 = 278;

pub const DESTINATION_REALM: u32 = 283;

pub const AUTHORIZATION_LIFETIME: u32 = 291;

pub const DESTINATION_HOST: u32 = 293;

pub const TERMINATION_CAUSE: u32 = 295;

pub const ORIGIN_REALM: u32 = 296;

pub const ACCOUNTING_RECORD_TYPE: u32 = 480;

pub const ACCOUNTING_RECORD_NUMBER: u32 = 485;

/// RFC 4005, sections 5 to 9.
pub const USER_PASSWORD: u32 = 2;

pub const STATE: u32 = 24;

pub const CHAP_CHALLENGE: u32 = 60;

pub const ACCOUNTING_INPUT_OCTETS: u32 = 363;

pub const ACCOUNTING_OUTPUT_OCTETS: u32 = 364;

pub const ACCOUNTING_INPUT_PACKETS: u32 = 365;

pub const ACCOUNTING_OUTPUT_PACKETS: u32 = 366;

pub const TUNNELING: u32 = 401;

pub const CHAP_AUTH: u32 = 402;

pub const CHAP_ALGORITHM: u32 = 403;

pub const CHAP_IDENT: u32 = 404;

pub const CHAP_RESPONSE: u32 = 405;

pub const ORIGIN_AAA_PROTOCOL: u32 = 408;

/// RFC 4072, section 4.1.
pub const EAP_PAYLOAD: u32 = 462;
