ghost use Rattle.hpb_run.specs.DeviceLaws.{DeviceInputIsText, DeviceSessionIsText};

/// A session on a device that works answers an input by the text of lines up to some line, and from there on as a
/// device that has failed. As long as the device works, it answers all of it by that text.
pub fn device_input_is_text()
    ensures { DeviceInputIsText }
{}

/// So a session on a device writes the text of the bytes that it read. At a fault of its own it writes a front of that
/// text, as much as the fault leaves.
pub fn device_session_is_text()
    ensures { DeviceSessionIsText }
{}
