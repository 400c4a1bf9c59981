/// What a packet carries of PTP.
#[derive(Clone, Copy)]
pub(crate) enum Content<'a> {
    /// A datagram, as far as it was captured.
    Datagram(&'a [u8]),
    /// A part of a datagram that was sent in several packets.
    Fragment,
}
