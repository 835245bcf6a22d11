//! The place of each field that is read, in octets from the frame's first, and the numbers that
//! have a meaning there (IEEE 1588-2019). Octets 5, 16 to 19, 32, and 46 of an Announce are free.

/// versionPTP, the low nibble of octet 1.
pub const PTP_VERSION: u8 = 2;
/// twoStepFlag in flagField.
pub const TWO_STEP: u16 = 0x0200;
/// One second, in ns: each nanosecondsField is below it.
pub const NANOS_PER_SECOND: u32 = 1_000_000_000;

/// messageType, the low nibble.
pub const MESSAGE_TYPE_AT: usize = 0;
/// versionPTP, the low nibble.
pub const VERSION_AT: usize = 1;
/// messageLength: 2 octets.
pub const MESSAGE_LENGTH_AT: usize = 2;
/// domainNumber: 1 octet.
pub const DOMAIN_AT: usize = 4;
/// flagField: 2 octets.
pub const FLAGS_AT: usize = 6;
/// correctionField: 8 octets, signed.
pub const CORRECTION_AT: usize = 8;
/// sourcePortIdentity: 10 octets.
pub const SOURCE_AT: usize = 20;
/// sequenceId: 2 octets.
pub const SEQUENCE_AT: usize = 30;
/// logMessageInterval: 1 octet.
pub const INTERVAL_AT: usize = 33;
/// The length of the header, and where the body begins.
pub const HEADER_LENGTH: usize = 34;

/// originTimestamp, preciseOriginTimestamp or receiveTimestamp: 10 octets.
pub const TIMESTAMP_AT: usize = 34;
/// targetPortIdentity of a Signaling: 10 octets.
pub const TARGET_AT: usize = 34;
/// requestingPortIdentity of a Delay_Resp: 10 octets.
pub const REQUESTING_AT: usize = 44;
/// currentUtcOffset of an Announce: 2 octets, signed.
pub const UTC_OFFSET_AT: usize = 44;
/// grandmasterPriority1 of an Announce: 1 octet.
pub const PRIORITY1_AT: usize = 47;
/// grandmasterClockQuality of an Announce: 4 octets.
pub const QUALITY_AT: usize = 48;
/// grandmasterPriority2 of an Announce: 1 octet.
pub const PRIORITY2_AT: usize = 52;
/// grandmasterIdentity of an Announce: 8 octets.
pub const GRANDMASTER_AT: usize = 53;
/// stepsRemoved of an Announce: 2 octets.
pub const STEPS_AT: usize = 61;
/// timeSource of an Announce: 1 octet.
pub const TIME_SOURCE_AT: usize = 63;

/// Within a Timestamp, the nanosecondsField: 4 octets after 6 of seconds.
pub const NANOS_WITHIN: usize = 6;
/// Within a PortIdentity, the portNumber: 2 octets after 8 of clockIdentity.
pub const PORT_WITHIN: usize = 8;
