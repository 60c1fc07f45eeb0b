//! The sample files: bytes worked out by hand, and a run over all of them.
ghost use Rattle.tex_world.specs.World.{IsFile};

use render_run::{NoHook, run};
use sample_folder::SampleFolder;
use std::alloc::Global;
use std::str::from_utf8;
use std::test::Fail;
use tex_world::{Folder, MemFeed, MemSink, Tap, TapHandle};

// The byte at a place of a file.
fn byte_at<T: Tap>(tap: &mut T, alloc: Global, file: u32, at: u64) -> Result<u8, &'static str>
    requires { IsFile T.W.files file }
{
    let Ok(mut handle) = tap.open(alloc, file, 0) else {
        return Err("not opened");
    };
    let mut byte = [0];
    if at >= handle.len() || tap.read_at(&mut handle, at, &mut byte).is_err() {
        return Err("not read");
    }
    Ok(byte[0])
}

// The byte at a place of the file with a name, through the tap of a new folder.
fn byte_of(alloc: Global, name: &str, at: u64) -> Result<u8, &'static str> {
    let mut folder = SampleFolder::new();
    if folder.enter(alloc, ".").is_err() {
        return Err("not entered");
    }
    let Some(file) = folder.find(name) else {
        return Err("not found");
    };
    let Ok(mut tap) = folder.tap(alloc) else {
        return Err("no tap");
    };
    let byte = byte_at(&mut tap, alloc, file, at);
    folder.back(tap);
    byte
}

/// The name of a case, a file, a place, and its byte.
static BYTES: &[(&str, &str, u64, u8)] = &[
    ("lowest byte first", "sample0.tif", 0, 0x49),
    ("width 256, its upper byte", "sample0.tif", 19, 1),
    ("strip 1 begins at 12488", "sample0.tif", 132, 0xc8),
    ("a strip takes 12288 bytes", "sample0.tif", 177, 0x30),
    ("channel 1 of texel (0, 0)", "sample0.tif", 201, 29),
    ("channel 0 of texel (1, 0)", "sample0.tif", 203, 7),
    ("channel 2 of texel (255, 191)", "sample0.tif", 147_655, 230),
    ("channel 0 of texel (0, 1)", "sample2.tif", 1160, 15),
    ("highest byte first", "sample1.tif", 0, 0x4d),
    ("width 288, its lower byte", "sample1.tif", 19, 0x20),
    ("15 tiles", "sample1.tif", 125, 15),
    ("the byte counts stand at 206", "sample1.tif", 141, 206),
    ("tile 0 begins at 236", "sample1.tif", 149, 236),
    ("a tile takes 8192 bytes", "sample1.tif", 206, 0x20),
    ("texel (2, 3), lower byte", "sample1.tif", 625, 7),
    ("texel (256, 1), upper byte", "sample1.tif", 33_132, 2),
    ("beside the picture, upper byte", "sample1.tif", 33_068, 0),
    ("texel (1, 64), lower byte", "sample1.tif", 41_199, 65),
    ("texel (479, 191), upper byte", "sample7.tif", 196_832, 0x6c),
    ("the same, lower byte", "sample7.tif", 196_833, 0x68),
];

#[test]
fn has_the_bytes_of_each_row(rt: HostRuntime) -> Result<(), Fail> {
    for (what, name, at, wanted) in BYTES {
        let byte = byte_of(rt.alloc(), name, *at)?;
        assert!(rt; byte == *wanted, "{what}: {byte}");
    }
    let past = byte_of(rt.alloc(), "sample7.tif", 196_898);
    assert!(rt; past.is_err(), "behind the last byte");
    Ok(())
}

const LIST: &[u8] = b"info sample0.tif\ninfo sample1.tif\ninfo sample2.tif\ninfo sample3.tif
info sample4.tif\ninfo sample5.tif\ninfo sample6.tif\ninfo sample7.tif
pixels 0 0 0 2 1 sample0.tif\npixels 0 255 191 1 1 sample0.tif\npixels 0 0 16 1 1 sample4.tif
pixels 0 2 3 1 1 sample1.tif\npixels 0 479 191 1 1 sample7.tif\n";

const ANSWERS: &str = "info 1 256 192 3 8 1 9\ninfo 1 288 192 1 16 1 9\ninfo 1 320 192 3 8 1 9
info 1 352 192 1 16 1 9\ninfo 1 384 192 3 8 1 9\ninfo 1 416 192 1 16 1 9
info 1 448 192 3 8 1 9\ninfo 1 480 192 1 16 1 9
pixels 1 3 0 7453 14906 1799 9252 16705\npixels 1 3 44204 51657 59110
pixels 1 3 54484 61937 3598\npixels 1 1 263\npixels 1 1 27752
worker 0 needs 2 hits 0\nworker 1 needs 1 hits 0\nworker 2 needs 1 hits 0\nworker 3 needs 1 hits 0
total 13 refused 0\n";

#[test]
fn runs_over_all_of_them(rt: HostRuntime) -> Result<(), Fail> {
    let alloc = rt.alloc();
    let mut words = Vec::new(alloc);
    words.push(String::from_str(alloc, ".")?)?;
    let mut folder = SampleFolder::new();
    let mut feed = MemFeed::new(LIST.to_vec(alloc)?, None);
    let mut written = MemSink::new(alloc, None);
    let status = run(
        &rt,
        alloc,
        &words,
        &mut folder,
        &mut feed,
        &mut written,
        &NoHook,
    );
    let text = from_utf8(written.bytes()).unwrap_or("no text");
    assert!(rt; status == 0, "status: {status}");
    assert!(rt; text == ANSWERS, "{text}");
    Ok(())
}
