//! The one spelling of scripts that are read, and of those that seeds generate.
use play_calls::generate;
use script_text::{print, read};
use std::test::Fail;

/// Texts, with the one spelling of each.
const READ: &[(&str, &str)] = &[
    ("camera 1", "camera 1\nclose\n"),
    ("camera 2", "camera 2\ndevice 6 3 4\nclose\n"),
    (
        "camera 1\nfault device 3\nearly\npick 1\nearly",
        "camera 1\nearly\nfault device 3\npick 1\nclose\n",
    ),
    (
        "camera 2\npick 1\nearly\nfault device 3\ndevice 8  3 7\nflush",
        "camera 2\ndevice 8 3 7\nearly\nfault device 3\npick 1\nflush\nclose\n",
    ),
    (
        "camera 1\nonce preview@0\nconfigure raw16:160x120 yuv:40x30\nonce preview@3\n\
         once preview@0+0\nonce 0,100,99999,100@0\nonce preview@-\nburst\nstop\nclose\nonce preview@0",
        "camera 1\nonce 2,128,10000000,100@0\nconfigure raw16:160x120 yuv:40x30\n\
         once 2,128,10000000,100@3\nonce 2,128,10000000,100@0+0\nonce 0,100,99999,100@0\n\
         once 2,128,10000000,100@-\nburst\nstop\nclose\nonce 2,128,10000000,100@0\n",
    ),
    (
        "camera 1\r\n  pick 3  0\r\n# c\r\nfault buffer 7 255\r\nfault result 1\r\npick 9\r\n\
         configure in:x7:1x65535 yuv:80x60\r\nrepeat still@2+1 preview@0\r\nawait 16384\r\nwait\r\n\
         flush\r\ndisconnect",
        "camera 1\nfault buffer 7 255\nfault result 1\npick 3 0 9\n\
         configure in:x7:1x65535 yuv:80x60\nrepeat 1,200,20000000,100@2+1 2,128,10000000,100@0\n\
         await 16384\nwait\nflush\ndisconnect\n",
    ),
];

/// Seeds and how many commands are drawn, with the script, worked out from the seed's words by the formulas alone.
const GENERATED: &[(u64, u32, &str)] = &[
    (
        1_234_567,
        5,
        "camera 1\nconfigure yuv:80x60 raw16:160x120\nrepeat 2,249,10000000,100@0+1\n\
         repeat 1,31,10000000,100@1\nwait\nconfigure yuv:80x60 raw16:160x120\n\
         repeat 2,189,10000000,100@0+1\nclose\n",
    ),
    (
        8_136,
        9,
        "camera 1\nfault result 3\nfault buffer 5 0\nfault request 9\nconfigure yuv:80x60 raw16:160x120\n\
         once 0,217,10000000,100@0\nflush\nrepeat 0,132,10000000,100@1\n\
         burst 2,171,10000000,100@1 2,171,10000000,100@1 2,171,10000000,100@1\nstop\n\
         once 0,117,10000000,100@1\nawait 4\n\
         burst 2,218,10000000,100@0 2,218,10000000,100@0 2,218,10000000,100@0\nawait 2\nclose\n",
    ),
];

#[test]
fn scripts_have_one_spelling(rt: HostRuntime) -> Result<(), Fail> {
    for (text, spelling) in READ {
        let script = read(rt.alloc(), text.as_bytes())?;
        let printed = print(rt.alloc(), &script)?;
        assert_eq!(rt; printed.as_slice(), spelling.as_bytes(), "{text:?}");
    }
    for (seed, count, spelling) in GENERATED {
        assert!(rt; *count <= 200);
        let script = generate(rt.alloc(), *seed, *count)?;
        assert!(rt; script.is_valid());
        let printed = print(rt.alloc(), &script)?;
        assert_eq!(rt; printed.as_slice(), spelling.as_bytes(), "{seed}");
    }
    Ok(())
}
