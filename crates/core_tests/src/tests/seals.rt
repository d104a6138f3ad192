use sealed_msg::*;

const LONG_KEY: &[u8; 54] = b"Test Using Larger Than Block-Size Key - Hash Key First";

const LONG_BOTH: &[u8; 152] =
    b"This is a test using a larger than block-size key and a larger than block-size data. The key needs to be hashed before being used by the HMAC algorithm.";

/// The test cases of RFC 4231 for HMAC-SHA-256, in its order; its fifth shows the first half of a tag.
#[test]
fn tags_of_rfc_4231(rt: HostRuntime) {
    let rising: [u8; 25] = [
        1, 2, 3, 4, 5, 6, 7, 8, 9, 10, 11, 12, 13, 14, 15, 16, 17, 18, 19, 20, 21, 22, 23, 24, 25,
    ];
    let tags = [
        Key::new(&[0x0b; 20]).tag(b"Hi There"),
        Key::new(b"Jefe").tag(b"what do ya want for nothing?"),
        Key::new(&[0xaa; 20]).tag(&[0xdd; 50]),
        Key::new(&rising).tag(&[0xcd; 50]),
        Key::new(&[0x0c; 20]).tag(b"Test With Truncation"),
        Key::new(&[0xaa; 131]).tag(LONG_KEY),
        Key::new(&[0xaa; 131]).tag(LONG_BOTH),
    ];
    let wanted = [
        "b0344c61d8db38535ca8afceaf0bf12b881dc200c9833da726e9376c2e32cff7",
        "5bdcc146bf60754e6a042426089575c75a003f089d2739839dec58b964ec3843",
        "773ea91e36800e46854db8ebd09181a72959098b3ef8c122d9635514ced565fe",
        "82558a389a443c0ea4cc819899f2083a85f0faa3e578f8077a2e3ff46729665b",
        "a3b6167473100ee06e0c796c2955552b",
        "60e431591ee0b67f0d8a26aacbf5b77f8e0bc6213728c5140546040f0ee37f54",
        "9b09ffa71b942fcb27635fbcd5b0e944bfdc63644f0713938a7f51535c3a35e2",
    ];
    for i in 0..7 {
        let hex = hex::encode(rt.alloc(), tags[i].as_slice()).expect(&rt, "memory");
        assert!(rt; hex.as_str().starts_with(wanted[i]));
    }
}
