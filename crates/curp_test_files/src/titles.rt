// The title of a node's journal, whose bytes were written by hand.
use curp_cmd::NodeId;
use curp_msg::{Header, Protocol};
use curp_title::{TITLE_LENGTH, Title, title_in, title_of};

/// Backup 3 of a run of two clients, in protocol 2.
static BACKUP: [u8; TITLE_LENGTH] = [
    b'C', b'U', b'R', b'P', b'N', b'O', b'D', b'E', 1, 3, 0, 0, 0, 3, 0, 0, 0, 2, 0, 0, 0, 1, 1, 0,
    0, 0, 5, 2, 0, 0, 4, 0, 0, 0, 0, 4,
];

fn backup() -> Title {
    Title {
        node: NodeId::backup(3),
        header: Header {
            clients: 2,
            f: 1,
            fast: true,
            parts: 5,
            protocol: Protocol::Two,
            sets: 1024,
            ways: 4,
        },
    }
}

#[test]
fn a_title_is_read_back(rt: HostRuntime) {
    let Title { node, header } = backup();
    assert_eq!(rt; title_of(node, &header), BACKUP);
    assert!(rt; title_in(&BACKUP) == Some(backup()));
}

/// Every number of 32 bits is one of a backup, but 0; the other bytes are changed to what can't stand there.
#[test]
fn bytes_that_are_no_title_are_refused(rt: HostRuntime) {
    for place in 0..TITLE_LENGTH {
        let mut bytes = BACKUP;
        bytes[place] = 0xee;
        let in_number = 10 <= place && place < 14;
        assert_eq!(rt; title_in(&bytes).is_some(), in_number, "{place}");
        assert!(rt; title_in(&BACKUP[..place]).is_none(), "{place}");
    }
}
