//! The heads of sources that say nothing of them.

use super::*;

// ISO/IEC 14496-12, 8.2.2, 8.3.2 and 8.4.2: `und` is 0x55C4, 1.0 is 0x00010000 and 0x0100, 1.0 in 2.30 is 0x40000000.
#[test]
fn plain_heads(rt: HostRuntime) {
    let movie = MovieHead::plain(rt.alloc());
    assert_eq!(rt; movie.rate, 0x0001_0000);
    assert_eq!(rt; movie.volume, 0x0100);
    assert_eq!(rt; movie.matrix[1], 1);
    assert_eq!(rt; movie.matrix[17], 1);
    assert_eq!(rt; movie.matrix[32], 0x40);
    assert_eq!(rt; movie.udta.len(), 0);
    let heads = [(*b"soun", 0x0100), (*b"vide", 0)];
    for (handler, volume) in heads {
        match TrackHead::plain(rt.alloc(), handler) {
            Ok(head) => {
                assert_eq!(rt; head.flags, 3);
                assert_eq!(rt; head.volume, volume);
                assert_eq!(rt; head.language, 0x55C4);
                assert_eq!(rt; head.name.len(), 1);
                assert_eq!(rt; head.name[0], 0);
                assert!(rt; head.handler == handler);
            }
            Err(_) => assert!(rt; false),
        }
    }
}
