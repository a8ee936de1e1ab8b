//! The laws of images.
ghost use Rattle.hpb_disk.specs.Laws.{PutIsRead, PutIsTorn, ElsewhereStays, OpenOrClosed, TornGateIsAByte};

/// Bytes that are put at an offset are read there.
pub fn put_is_read()
    ensures { PutIsRead }
{}

/// Bytes that are put at an offset change nothing else, and not the length.
pub fn put_is_torn()
    ensures { PutIsTorn }
{}

/// If an image is torn at an offset, a part apart from there stays.
pub fn elsewhere_stays()
    ensures { ElsewhereStays }
{}

/// Each gate is open or closed.
pub fn open_or_closed()
    ensures { OpenOrClosed }
{}

/// A torn gate has some byte, and all other bytes stay.
pub fn torn_gate_is_a_byte()
    ensures { TornGateIsAByte }
{}
