//! What a slave writes, octet for octet.

use crate::values::{DELAY_REQ, SLAVE_PORT, changed};
use pairing::ListTable;
use ptp_units::Seq;
use slave_port::{HeldFollow, HeldRequest, HeldSync, SlavePort};

type Slave = SlavePort<ListTable<HeldSync, 1>, ListTable<HeldFollow, 1>, ListTable<HeldRequest, 1>>;

#[test]
fn writes_requests_with_their_numbers(rt: HostRuntime) {
    let mut slave = Slave::new(SLAVE_PORT, Seq(0));
    assert_eq!(rt; slave.next_request(1), (DELAY_REQ, Seq(0)));
    let second = changed(DELAY_REQ, &[(31, 1)]);
    assert_eq!(rt; slave.next_request(2), (second, Seq(1)));

    let mut slave = Slave::new(SLAVE_PORT, Seq(65_535));
    let last = changed(DELAY_REQ, &[(30, 0xff), (31, 0xff)]);
    assert_eq!(rt; slave.next_request(3), (last, Seq(65_535)));
    assert_eq!(rt; slave.next_request(4), (DELAY_REQ, Seq(0)));
}
