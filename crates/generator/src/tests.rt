//! The sums of files were computed by an independent script, and those of words stand in the test suite of FNV.

use super::*;
use std::alloc::Global;
use std::test::Fail;

#[test]
fn sums_of_words(rt: HostRuntime) {
    let sums: [(&str, u64); 4] = [
        ("", 0xCBF2_9CE4_8422_2325),
        ("a", 0xAF63_DC4C_8601_EC8C),
        ("foobar", 0x8594_4171_F739_67E8),
        ("chongo was here!\n", 0x4681_0940_EFF5_F915),
    ];
    for (word, wanted) in sums {
        assert_eq!(rt; sum_of(word.as_bytes()), wanted, "{word}");
    }
}

#[test]
fn files_of_fifty_pictures(rt: HostRuntime) -> Result<(), Fail> {
    let alloc = Global::new(rt.memory());
    let table = table(alloc, 50)?;
    assert_eq!(rt; table.len(), 824);
    assert_eq!(rt; sum_of(&table), 0xE65A_A57B_50BE_9102);
    let media = media(alloc, 50)?;
    assert_eq!(rt; media.len(), 6225);
    assert_eq!(rt; sum_of(&media), 0xC089_BC62_AE38_C207);
    let stream = stream(alloc, 50)?;
    assert_eq!(rt; stream.len(), 1926);
    assert_eq!(rt; sum_of(&stream), 0xB504_5EE5_DC60_87AD);
    Ok(())
}

#[test]
fn files_of_five_thousand_pictures(rt: HostRuntime) -> Result<(), Fail> {
    let alloc = Global::new(rt.memory());
    assert_eq!(rt; sum_of(&table(alloc, 5000)?), 0x44F9_7D90_B8F0_5391);
    assert_eq!(rt; sum_of(&media(alloc, 5000)?), 0x2D66_6A0B_7104_D391);
    assert_eq!(rt; sum_of(&stream(alloc, 5000)?), 0xAF01_7932_92E3_3457);
    Ok(())
}

#[test]
fn lines(rt: HostRuntime) -> Result<(), Fail> {
    let counts = Counts {
        video: 26,
        audio: 44,
        bytes: 5567,
    };
    let line = generated_line(Global::new(rt.memory()), 50, counts, 0x00AB_0000_0000_001F)?;
    assert_eq!(rt;
        line.as_str(),
        "gen 50 video 26 audio 44 bytes 5567 sum 00ab00000000001f\n"
    );
    Ok(())
}
