/// The link types of captures in which PTP is looked for, as tcpdump.org has them.
#[derive(Clone, Copy)]
pub(crate) enum LinkType {
    /// `LINKTYPE_NULL`: a family of addresses in four octets, in the order of the machine that captured.
    Null,
    /// `LINKTYPE_ETHERNET`: two addresses and an EtherType in 14 octets.
    Ethernet,
    /// `LINKTYPE_RAW`: IP of either version.
    Raw,
    /// `LINKTYPE_LOOP`: a family of addresses in four octets, in the order of the network.
    Loop,
    /// `LINKTYPE_LINUX_SLL`: 16 octets, of which the last two are an EtherType.
    Cooked,
    /// `LINKTYPE_IPV4`
    Ipv4,
    /// `LINKTYPE_IPV6`
    Ipv6,
    /// `LINKTYPE_LINUX_SLL2`: 20 octets, of which the first two are an EtherType.
    Cooked2,
}

impl LinkType {
    ghost use Rattle.std.specs.Prelude.{◌≡◌};
    ghost use Rattle.capture_frame.specs.Link.{link_numbered};

    /// The link type with this number of tcpdump.org.
    pub(crate) fn from_number(number: u16) -> Option<LinkType>
        ensures { result ≡ link_numbered number }
    {
        match number {
            0 => Some(LinkType::Null),
            1 => Some(LinkType::Ethernet),
            101 => Some(LinkType::Raw),
            108 => Some(LinkType::Loop),
            113 => Some(LinkType::Cooked),
            228 => Some(LinkType::Ipv4),
            229 => Some(LinkType::Ipv6),
            276 => Some(LinkType::Cooked2),
            _ => None,
        }
    }
}
