// What no clause says: the lengths and bytes of reads as numbers, what a file gives, and how often a
// read is refused.
use base_image::{
    FailingImage, FileImage, Image, ImageFault, MemoryImage, ZeroImage, are_alike, file_image,
    file_images,
};
use bytes::Bytes;
use std::fs::File;
use std::process::Abort;
use std::test::Fail;
use std::{fs, process};

// What is asked of an image, together with what it answers.
#[derive(Clone, Copy, Debug, PartialEq, Eq)]
enum Told {
    Sectors(u64),
    Faults(u64),
    // A read at an offset of so many bytes: the answer, and how many bytes at the buffer's front are then the image's.
    Read(u64, usize, Result<usize, ImageFault>, usize),
    OutOfRange,
}

// Asks that again of an image whose bytes are all this one, and tells what it answers. No byte of the buffer is that one
// before.
fn again<I: Image>(image: &mut I, byte: u8, told: Told) -> Told {
    match told {
        Told::Sectors(_) => Told::Sectors(image.sectors()),
        Told::Faults(_) => Told::Faults(image.faults()),
        Told::Read(offset, length, ..) if length <= 512 && image.faults() < 1 << 63 => {
            let mut buffer = [byte ^ 0xff; 512];
            let answer = image.read_at(offset, &mut buffer[..length]);
            let front = buffer
                .iter()
                .position(|b| *b != byte)
                .unwrap_or(buffer.len());
            Told::Read(offset, length, answer, front)
        }
        Told::Read(..) | Told::OutOfRange => Told::OutOfRange,
    }
}

// All of that is answered again, in this order.
fn expect<I: Image>(rt: &impl Abort, image: &mut I, byte: u8, all: &[Told]) {
    for told in all {
        assert_eq!(rt; again(image, byte, *told), *told);
    }
}

// A read of so many bytes that gives these, and reads of 8 bytes that give all of them or fail.
fn gives(offset: u64, length: usize, count: usize) -> Told {
    Told::Read(offset, length, Ok(count), count)
}

const EIGHT: Told = Told::Read(0, 8, Ok(8), 8);

const BUSY: Told = Told::Read(0, 8, Err(ImageFault::Busy), 0);

const FAILS: Told = Told::Read(0, 8, Err(ImageFault::Device), 0);

// One sector of bytes that are 0x37, told as two sectors.
fn one_of_two_sectors() -> MemoryImage {
    MemoryImage::new(Bytes::from_static(&[0x37; 512]), 2)
}

#[test]
fn memory_image(rt: HostRuntime) {
    for told in [
        Told::Sectors(2),
        Told::Faults(0),
        gives(0, 512, 512),
        gives(500, 100, 12),
        gives(511, 1, 1),
        // at its end and past it, within the sectors that it tells and behind them
        gives(512, 512, 0),
        gives(600, 8, 0),
        gives(1024, 8, 0),
        gives(u64::MAX, 8, 0),
        gives(0, 0, 0),
    ] {
        expect(&rt, &mut one_of_two_sectors(), 0x37, &[told]);
    }
}

#[test]
fn zero_image(rt: HostRuntime) {
    for told in [
        Told::Sectors(2),
        Told::Faults(0),
        gives(0, 512, 512),
        gives(512, 512, 512),
        gives(1012, 100, 12),
        gives(1024, 512, 0),
        gives(u64::MAX, 8, 0),
        gives(0, 0, 0),
    ] {
        expect(&rt, &mut ZeroImage::new(2), 0, &[told]);
    }
}

// The first read fails, or the second, or none.
#[test]
fn reads_that_fail(rt: HostRuntime) {
    for (number, fault, all) in [
        (
            1,
            ImageFault::Busy,
            [
                Told::Sectors(2),
                BUSY,
                Told::Faults(1),
                EIGHT,
                Told::Faults(1),
            ]
            .as_slice(),
        ),
        (
            2,
            ImageFault::Device,
            [EIGHT, FAILS, EIGHT, Told::Faults(1)].as_slice(),
        ),
        (
            0,
            ImageFault::Device,
            [EIGHT, EIGHT, Told::Faults(0)].as_slice(),
        ),
    ] {
        let mut image = FailingImage::new(one_of_two_sectors(), number, fault);
        expect(&rt, &mut image, 0x37, all);
    }
}

// Failures of the image inside are counted, those before and those after it was put inside.
#[test]
fn failure_inside(rt: HostRuntime) {
    let mut inside = FailingImage::new(one_of_two_sectors(), 1, ImageFault::Busy);
    expect(&rt, &mut inside, 0x37, &[BUSY]);
    let mut middle = FailingImage::new(inside, 1, ImageFault::Device);
    let all = [Told::Faults(1), FAILS, Told::Faults(2), EIGHT];
    expect(&rt, &mut middle, 0x37, &all);
}

// A file of 1,000 bytes is one whole sector, and a read may go past that to the file's end.
#[test]
fn bytes_of_a_file(rt: HostRuntime) -> Result<(), Fail> {
    let process = process::id(rt.process());
    let path = format!(in rt.alloc(); "/tmp/base_image-{process}")?;
    fs::write(&rt, path.as_str(), [0x37; 1000].as_slice())?;
    let file = File::open(&rt, path.as_str())?;
    fs::remove_file(&rt, path.as_str())?;
    let mut image = FileImage::from_file(file)?;
    let all = [
        Told::Sectors(1),
        gives(0, 512, 512),
        gives(900, 512, 100),
        gives(1000, 512, 0),
        Told::Faults(0),
    ];
    expect(&rt, &mut image, 0x37, &all);
    Ok(())
}

// It still tells the sector that it had when it was opened, and has nothing to read.
#[test]
fn file_that_has_become_shorter(rt: HostRuntime) -> Result<(), Fail> {
    let process = process::id(rt.process());
    let path = format!(in rt.alloc(); "/tmp/base_image-shorter-{process}")?;
    fs::write(&rt, path.as_str(), [0x37; 1000].as_slice())?;
    let file = File::open(&rt, path.as_str())?;
    let writable = File::options().write(true).open(&rt, path.as_str())?;
    fs::remove_file(&rt, path.as_str())?;
    let mut image = FileImage::from_file(file)?;
    writable.set_len(0)?;
    expect(&rt, &mut image, 0x37, &[Told::Sectors(1), gives(0, 512, 0)]);
    Ok(())
}

// The system refuses an offset past its greatest.
#[test]
fn file_image_counts_failures(rt: HostRuntime) -> Result<(), Fail> {
    let mut image = FileImage::from_file(File::open(&rt, "/dev/null")?)?;
    let fails = Told::Read(u64::MAX, 8, Err(ImageFault::Device), 0);
    let all = [Told::Sectors(0), fails, Told::Faults(1)];
    expect(&rt, &mut image, 0, &all);
    Ok(())
}

#[test]
fn no_image_in_a_folder(rt: HostRuntime) -> Result<(), Fail> {
    let folder = File::open(&rt, "/tmp")?;
    let write_only = File::options().write(true).open(&rt, "/dev/null")?;
    let are_refused = [
        FileImage::from_file(folder).is_err(),
        FileImage::from_file(write_only).is_err(),
    ];
    assert_eq!(rt; are_refused, [true, true]);
    Ok(())
}

// The file is another one each time that it is opened, as if somebody changed it between the opens of two workers.
#[test]
fn images_of_different_sizes(rt: HostRuntime) -> Result<(), Fail> {
    let process = process::id(rt.process());
    let path = format!(in rt.alloc(); "/tmp/base_image-sizes-{process}")?;
    for (sizes, alike) in [
        // bytes behind the last whole sector do not count
        ([512, 1000, 1023], true),
        ([0, 100, 511], true),
        ([512, 512, 1024], false),
        ([512, 1024, 512], false),
        ([1024, 512, 512], false),
    ] {
        let mut images = Vec::new(rt.alloc());
        for bytes in sizes {
            fs::write(&rt, path.as_str(), &[0x37; 1024][..bytes.min(1024)])?;
            images.push(file_image(&rt, path.as_str())?)?;
            fs::remove_file(&rt, path.as_str())?;
        }
        assert_eq!(rt; are_alike(images.as_slice()), alike);
    }
    Ok(())
}

// Each worker gets an image of the same file. A folder, and a file that is not there, give none.
#[test]
fn images_of_a_file(rt: HostRuntime) -> Result<(), Fail> {
    let process = process::id(rt.process());
    let path = format!(in rt.alloc(); "/tmp/base_image-opened-{process}")?;
    fs::write(&rt, path.as_str(), [0x37; 1024].as_slice())?;
    let mut images = file_images(&rt, rt.alloc(), path.as_str(), 3)?;
    fs::remove_file(&rt, path.as_str())?;
    assert_eq!(rt; images.len(), 3);
    for image in images.as_mut_slice() {
        expect(&rt, image, 0x37, &[Told::Sectors(2), gives(512, 512, 512)]);
    }
    let are_refused = [
        file_images(&rt, rt.alloc(), path.as_str(), 1).is_err(),
        file_images(&rt, rt.alloc(), "/tmp", 1).is_err(),
        file_image(&rt, "/dev/null").is_err(),
    ];
    assert_eq!(rt; are_refused, [true; 3]);
    Ok(())
}
