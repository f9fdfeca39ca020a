// Images of files that are opened by name.
ghost use Rattle.std.specs.Prelude.{◌≡◌, ◌↔◌, length, IfOk, IsTrue, None, true};
ghost use Rattle.base_image.specs.Kinds.{fresh, unread, AreAlike, AreUnread};

use crate::file::FileImage;
use crate::image::Image;
use std::alloc::Global;
use std::fs::{self, File};
use std::io::{self, ErrorKind};
use std::os::unix::fs::FileTypeExt;
use std::rt::Files;

/// The image in a regular file or on a block device. It is looked at before it is opened, since the open of a FIFO waits, and
/// since a character device has no length.
///
/// # Errors
///
/// It is of another kind, cannot be opened or read, or its length cannot be told.
pub fn file_image(rt: &impl Files<File = File>, path: &str) -> io::Result<FileImage>
    ensures { IfOk result (λ image. image ≡ unread (fresh image.disk.sectors None true)) }
{
    let found = fs::metadata(rt, path)?.file_type();
    if !found.is_file() && !found.is_block_device() {
        return Err(ErrorKind::InvalidInput.into());
    }
    File::open(rt, path).and_then(FileImage::from_file)
}

/// The image in a file, opened once for each of so many workers. None was read yet, and each tells the same number of sectors.
///
/// # Errors
///
/// One cannot be opened, or tells another number of sectors than the first; or there is no memory for them.
pub fn file_images(
    rt: &impl Files<File = File>,
    alloc: Global,
    path: &str,
    workers: u8,
) -> io::Result<Vec<FileImage>>
    ensures many { IfOk result (λ images. length images.items ≡ workers) }
    ensures alike { IfOk result (λ images. AreAlike images.items) }
    ensures unread { IfOk result (λ images. AreUnread images.items) }
{
    let mut images = Vec::new(alloc);
    for _opened in 0..workers {
        images.push(file_image(rt, path)?)?;
    }
    if !are_alike(images.as_slice()) {
        return Err(ErrorKind::InvalidData.into());
    }
    Ok(images)
}

/// Whether all tell as many sectors as the first.
pub fn are_alike(images: &[FileImage]) -> bool
    ensures { IsTrue result ↔ AreAlike images.now }
{
    for number in 0..images.len() {
        if images[number].sectors() != images[0].sectors() {
            return false;
        }
    }
    true
}
