ghost use Rattle.std.specs.Prelude.{◌≡◌, ◌<◌};

/// The types of TLV whose records are read (IEEE 1588-2019, 14.1 and 16.11.4; the second is linuxptp's own).
#[derive(Clone, Copy, Debug)]
pub(crate) enum TlvType {
    /// SLAVE_RX_SYNC_TIMING_DATA.
    SyncTiming,
    /// SLAVE_DELAY_TIMING_DATA_NP.
    DelayTiming,
}

impl TlvType {
    ghost use Rattle.signaling_codec.specs.Layout.{type_number, record_length};
    ghost use Rattle.signaling_codec.specs.Tlv.{type_numbered};

    /// The type with this tlvType.
    pub(crate) fn from_number(number: u16) -> Option<TlvType>
        ensures { result ≡ type_numbered number }
    {
        match number {
            0x8004 => Some(TlvType::SyncTiming),
            0x7f00 => Some(TlvType::DelayTiming),
            _ => None,
        }
    }

    /// tlvType.
    pub(crate) fn number(self) -> u16
        ensures { result ≡ type_number self }
    {
        match self {
            TlvType::SyncTiming => 0x8004,
            TlvType::DelayTiming => 0x7f00,
        }
    }

    /// The octets of a record.
    pub(crate) fn record_length(self) -> usize
        ensures { result ≡ record_length self }
    {
        match self {
            TlvType::SyncTiming => 34,
            TlvType::DelayTiming => 30,
        }
    }
}
