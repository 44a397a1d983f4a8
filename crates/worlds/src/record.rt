// A record's bytes: its mark and its fields.
use acts::Fields;
use replay_log::RECORD;

// The fields of a record that has the mark.
pub fn fields(record: &[u8; RECORD]) -> Option<Fields> {
    match *record {
        [0xB1, 0x6B, act, choice, thread, object, a, b, c, d] => Some(Fields {
            act,
            choice,
            thread,
            object,
            value: u32::from_le_bytes([a, b, c, d]),
        }),
        _ => None,
    }
}
