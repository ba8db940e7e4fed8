//! A count as a line, at its place.
use octet_fields::put_line;

#[test]
fn a_line_stands_behind_what_was_there(rt: HostRuntime) {
    let mut out = *b"ABCDEFGHIJKLMNOPQRSTUVWXYZABCDEFGHIJ";
    let end = put_line(&mut out, 2, "late", 120);
    assert_eq!(rt; end, 11);
    assert_eq!(rt;
        out.as_slice(),
        b"ABlate 120\nLMNOPQRSTUVWXYZABCDEFGHIJ".as_slice()
    );
    assert_eq!(rt; put_line(&mut out, 11, "up", u64::MAX), 35);
    assert_eq!(rt;
        out.as_slice(),
        b"ABlate 120\nup 18446744073709551615\nJ".as_slice()
    );
}
