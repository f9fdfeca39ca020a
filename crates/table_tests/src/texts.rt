// Texts of the rule, and that the calls succeed while memory is left.
use sector_text::{put_hex, put_hex_words};
use std::alloc::Global;
use std::test::Fail;

fn text_of(alloc: Global, bytes: &[u8]) -> Result<Vec<u8>, Fail> {
    let mut out = Vec::new(alloc);
    put_hex(&mut out, bytes)?;
    Ok(out)
}

#[test]
fn one_text(rt: HostRuntime) -> Result<(), Fail> {
    for (bytes, text) in [
        ([0u8, 0, 0].as_slice(), "00"),
        ([9, 9, 9].as_slice(), "09"),
        ([10, 10, 10].as_slice(), "0a"),
        ([175, 175, 175].as_slice(), "af"),
        ([255, 255, 255].as_slice(), "ff"),
        ([0, 0, 1].as_slice(), "000001"),
        ([1, 0, 0].as_slice(), "010000"),
        ([18, 160, 249].as_slice(), "12a0f9"),
        ([].as_slice(), ""),
    ] {
        let out = text_of(rt.alloc(), bytes)?;
        assert_eq!(rt; out.as_slice(), text.as_bytes(), "{bytes:?}");
    }
    Ok(())
}

// Three sectors and a byte: the letter A, zeros and a last 7, 16s, and 1.
fn sectors(alloc: Global) -> Result<Vec<u8>, Fail> {
    let mut bytes = vec![in alloc; 65u8; 512]?;
    bytes.extend_from_slice(&[0; 511])?;
    bytes.push(7)?;
    bytes.extend_from_slice(&[16; 512])?;
    bytes.push(1)?;
    Ok(bytes)
}

// The text of a sector whose bytes are all one is that byte's, and what is no whole sector has none.
fn words(alloc: Global) -> Result<Vec<u8>, Fail> {
    let mut want = b"completed 41 ".to_vec(alloc)?;
    for _ in 0..511 {
        want.extend_from_slice(b"00")?;
    }
    want.extend_from_slice(b"07 10")?;
    Ok(want)
}

fn text_of_words(alloc: Global) -> Result<Vec<u8>, Fail> {
    let mut out = b"completed".to_vec(alloc)?;
    put_hex_words(&mut out, sectors(alloc)?.as_slice())?;
    Ok(out)
}

#[test]
fn whole_sectors(rt: HostRuntime) -> Result<(), Fail> {
    let want = words(rt.alloc())?;
    assert_eq!(rt; text_of_words(rt.alloc())?, want);
    Ok(())
}
