use super::shown::told_behind;
use super::vectors::Message;

// Such a call is answered -455, and its number is used: the good call of that number is answered alike.
#[test]
fn a_call_of_an_unknown_operation_is_refused(rt: HostRuntime) {
    let told = told_behind(rt.alloc(), Message::UnknownOperation);
    assert_eq!(rt;
        told.as_str(),
        "records 2\n00000002000000010000006500000001000000010000000200000000000000a1fffffe39\nrecords 2\n00000002000000010000006500000001000000010000000200000000000000a1fffffe39\n"
    );
}

// What can't be read behind a good header is answered -453.
#[test]
fn a_call_that_is_cut_is_refused(rt: HostRuntime) {
    let told = told_behind(rt.alloc(), Message::Cut);
    assert_eq!(rt;
        told.as_str(),
        "records 2\n0000000200000001000000650000000100000001000000020000000000000082fffffe3b\nrecords 2\n0000000200000001000000650000000100000001000000020000000000000082fffffe3b\n"
    );
}

#[test]
fn a_call_with_a_bad_pad_byte_is_refused(rt: HostRuntime) {
    let told = told_behind(rt.alloc(), Message::BadPad);
    assert_eq!(rt;
        told.as_str(),
        "records 2\n0000000200000001000000650000000100000001000000020000000000000082fffffe3b\nrecords 2\n0000000200000001000000650000000100000001000000020000000000000082fffffe3b\n"
    );
}

// It is not answered, and no number is used: the good call is served.
#[test]
fn a_message_of_an_unknown_half_is_dropped(rt: HostRuntime) {
    let told = told_behind(rt.alloc(), Message::UnknownHalf);
    assert_eq!(rt;
        told.as_str(),
        "records 2\ngrant records 2\n0000000200000001000000650000000100000001000000020000000000000082000000000000000361626300000000010000000100000001000000030000000100000000000000000000007f0000007f000001a400000001000000010000000000000000000000000000000000000001000000000000000000000000000000000000000100001c2000000002000000000000000000000000000000000000000000000000\n"
    );
}
