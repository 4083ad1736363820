//! What `book_verify` writes of each file, and its status, also where a device fails.

use super::super::{NO_FAILURE, unseen};
use super::EMPTY_BOOK;
use oth_main::{Errors, book_verify};
use oth_text::fakes::ByteSink;

// Files, and what `book_verify` writes of each on standard output and on standard error, and its status.
const VERIFIED: [(&[u8], &[u8], &[u8], u8); 24] = [
    (b"OBOOK1\nEND 000000\n", b"book ok 0\n", b"", 0),
    (b"OBOOK2 W\nEND 000000\n", b"book ok 0\n", b"", 0),
    (b"OBOOK2 D\nEND 000000\n", b"book ok 0\n", b"", 0),
    (b"OBOOK1\nEND 000000", b"", b"book error 5\n", 3),
    (b"OBOOK1\nEND 000000\n\n", b"", b"book error 6\n", 3),
    (b"", b"", b"book error 5\n", 3),
    (b"OBOOK3\n", b"", b"book error 1\n", 3),
    (b"OBOOK2", b"", b"book error 5\n", 3),
    (
        b"OBOOK1\n--OXOOO-OOOOOOOOOOOOOOOOOOOOOOOOOOOOOOOOOOOOOOOOOOOOOOOOOOOOOOOO -50 0000000000000080\nEND 000001\n",
        b"book ok 1\n",
        b"",
        0,
    ),
    (
        b"OBOOK1\n--OXOOO-OOOOOOOOOOOOOOOOOOOOOOOOOOOOOOOOOOOOOOOOOOOOOOOOOOOOOOOO -48 0000000000000080\nEND 000001\n",
        b"",
        b"book wrong 1 at 1\n",
        3,
    ),
    (
        b"OBOOK1\n--OXOOO-OOOOOOOOOOOOOOOOOOOOOOOOOOOOOOOOOOOOOOOOOOOOOOOOOOOOOOOO -50 0000000000000002\nEND 000001\n",
        b"",
        b"book wrong 2 at 1\n",
        3,
    ),
    (
        b"OBOOK1\n--OXOOO-OOOOOOOOOOOOOOOOOOOOOOOOOOOOOOOOOOOOOOOOOOOOOOOOOOOOOOOO -00 0000000000000080\nEND 000001\n",
        b"",
        b"book error 2 at 1\n",
        3,
    ),
    (
        b"OBOOK1\n--OXOOO-OOOOOOOOOOOOOOOOOOOOOOOOOOOOOOOOOOOOOOOOOOOOOOOOOOOOOOOO -50 0000000000000080\n\
          --OXOOO-OOOOOOOOOOOOOOOOOOOOOOOOOOOOOOOOOOOOOOOOOOOOOOOOOOOOOOOO -50 0000000000000080\nEND 000001\n",
        b"",
        b"book error 3 at 2\n",
        3,
    ),
    (
        b"OBOOK1\n--OXOOO-OOOOOOOOOOOOOOOOOOOOOOOOOOOOOOOOOOOOOOOOOOOOOOOOOOOOOOOO -50 0000000000000080\nEND 000002\n",
        b"",
        b"book error 4\n",
        3,
    ),
    (
        b"OBOOK2 D\n--OXOOO-OOOOOOOOOOOOOOOOOOOOOOOOOOOOOOOOOOOOOOOOOOOOOOOOOOOOOOOO -50 -50 0000000000000080\n\
          END 000001\n",
        b"",
        b"book wrong 1 at 1\n",
        3,
    ),
    (
        b"OBOOK2 D\n--OXOOO-OOOOOOOOOOOOOOOOOOOOOOOOOOOOOOOOOOOOOOOOOOOOOOOOOOOOOOOO -49 -49 0000000000000080\n\
          END 000001\n",
        b"book ok 1\n",
        b"",
        0,
    ),
    (
        b"OBOOK2 W\n--OXOOO-OOOOOOOOOOOOOOOOOOOOOOOOOOOOOOOOOOOOOOOOOOOOOOOOOOOOOOOO -64 -40 0000000000000000\n\
          END 000001\n",
        b"book ok 1\n",
        b"",
        0,
    ),
    (
        b"OBOOK2 W\n--OXOOO-OOOOOOOOOOOOOOOOOOOOOOOOOOOOOOOOOOOOOOOOOOOOOOOOOOOOOOOO -48 +64 0000000000000000\n\
          END 000001\n",
        b"",
        b"book wrong 1 at 1\n",
        3,
    ),
    (
        b"OBOOK2 W\n--OXOOO-OOOOOOOOOOOOOOOOOOOOOOOOOOOOOOOOOOOOOOOOOOOOOOOOOOOOOOOO -40 -64 0000000000000000\n\
          END 000001\n",
        b"",
        b"book error 2 at 1\n",
        3,
    ),
    (
        b"OBOOK2 W\n--OXOOO-OOOOOOOOOOOOOOOOOOOOOOOOOOOOOOOOOOOOOOOOOOOOOOOOOOOOOOOO -64 -40 0000000000000080\n\
          END 000001\n",
        b"",
        b"book error 2 at 1\n",
        3,
    ),
    (
        b"OBOOK2 W\n--OXOOO-OOOOOOOOOOOOOOOOOOOOOOOOOOOOOOOOOOOOOOOOOOOOOOOOOOOOOOOO -50 -50 0000000000000000\n\
          END 000001\n",
        b"",
        b"book wrong 2 at 1\n",
        3,
    ),
    (
        b"OBOOK2 W\n---------------------------------------------------------------- -64 +64 0000000000000000\n\
          END 000001\n",
        b"",
        b"book wrong 3 at 1\n",
        3,
    ),
    (
        b"OBOOK2 W\n--OXOOO-OOOOOOOOOOOOOOOOOOOOOOOOOOOOOOOOOOOOOOOOOOOOOOOOOOOOOOOO -50 -50 0000000000000080\n\
          XXXXXXXXXXXXXXXXXXXXXXXXXXXXXXXXXXXXXXXXXXXXXXXXXXXXXXXX-OXXXXO- +62 +62 8100000000000000\nEND 000002\n",
        b"",
        b"book wrong 1 at 2\n",
        3,
    ),
    (
        b"OBOOK2 W\n--OXOOO-OOOOOOOOOOOOOOOOOOOOOOOOOOOOOOOOOOOOOOOOOOOOOOOOOOOOOOOO -50 -50 0000000000000080\n\
          XXXXXXXXXXXXXXXXXXXXXXXXXXXXXXXXXXXXXXXXXXXXXXXXXXXXXXXX-OXXXXO- +65 +65 8100000000000000\nEND 000002\n",
        b"",
        b"book error 2 at 2\n",
        3,
    ),
];

#[test]
fn verifies_each_file(rt: HostRuntime) {
    for (file, written, told, status) in VERIFIED {
        let mut writer = ByteSink::<64>::new(NO_FAILURE);
        let mut errors = Errors::new(ByteSink::<64>::new(NO_FAILURE), false);
        assert!(rt;
            book_verify(&rt, rt.alloc(), file, &mut writer, &mut errors, &unseen()) == status
        );
        assert!(rt; writer.taken() == written);
        assert!(rt; errors.sink.taken() == told);
    }
}

// A writer that fails is told of, and a standard error that fails is passed over.
#[test]
fn a_verdict_ends_with_its_status_where_a_device_fails(rt: HostRuntime) {
    let mut writer = ByteSink::<64>::new(4);
    let mut errors = Errors::new(ByteSink::<64>::new(NO_FAILURE), false);
    assert!(rt;
        book_verify(
            &rt,
            rt.alloc(),
            EMPTY_BOOK,
            &mut writer,
            &mut errors,
            &unseen()
        ) == 1
    );
    assert!(rt; writer.calls() == 5 && errors.sink.calls() == 12);
    assert!(rt;
        writer.taken() == b"book".as_slice() && errors.sink.taken() == b"run error 2\n".as_slice()
    );
    let mut errors = Errors::new(ByteSink::<64>::new(4), false);
    assert!(rt; book_verify(&rt, rt.alloc(), b"", &mut writer, &mut errors, &unseen()) == 3);
    assert!(rt; writer.calls() == 5 && errors.sink.calls() == 5);
}
