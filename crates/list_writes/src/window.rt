// The bytes of a file that are at hand: those that were read last, in a buffer of 64 KiB.
ghost use Rattle.std.specs.Prelude.{◌+◌, ◌≤◌, ◌<◌, ◌^◌, ◌≡◌, length as length_of};
ghost use Rattle.list_writes.specs.Driver.{Within};

use extent::Extent;
use std::fs::File;
use std::os::unix::fs::FileExt;

// The first `count` bytes of the buffer are the file's from `at` on.
#[derive(Clone, Copy)]
pub struct Window {
    at: u64,
    count: usize,
    ghost in_range: { count ≤ 65536 },
}

impl Window {
    pub const EMPTY: Window = Window { at: 0, count: 0 };

    // A window in which what is wanted is whole, if it can be read.
    pub fn moved(self, file: &File, wanted: Extent, bytes: &mut [u8; 65536]) -> Window {
        if self.place(wanted).is_some() {
            return self;
        }
        let least = wanted.length.min(65536) as usize;
        let most = self.ahead(wanted.offset, least);
        read(file, wanted.offset, least, &mut bytes[..most])
    }

    // Where in the buffer it starts, if it is there whole.
    pub fn place(self, wanted: Extent) -> Option<usize>
        ensures { Within wanted.length result }
    {
        if wanted.length == 0 {
            return Some(0);
        }
        let start = wanted.offset.checked_sub(self.at)?;
        let count = self.count as u64;
        if start <= count && wanted.length <= count - start {
            Some(start as usize)
        } else {
            None
        }
    }

    // How many bytes to read, at least so many: where they follow the window directly, twice as many as it has. A long stretch is then
    // read in few calls, and little is read in vain elsewhere.
    fn ahead(self, offset: u64, least: usize) -> usize
        requires { least ≤ 65536 }
        ensures { (least ≤ result) × (result ≤ 65536) }
    {
        if self.at.checked_add(self.count as u64) == Some(offset) {
            (2 * self.count).clamp(least, 65536)
        } else {
            least
        }
    }
}

// From an offset of the file on; fewer than the least where the file ends or cannot be read.
fn read(file: &File, at: u64, least: usize, bytes: &mut [u8]) -> Window
    requires { (least ≤ length_of bytes.old) × (length_of bytes.old ≤ 65536) }
{
    if 4611686018427387904 < at {
        return Window::EMPTY;
    }
    Window {
        at,
        count: fill(file, at, least, bytes),
    }
}

fn fill(file: &File, at: u64, least: usize, bytes: &mut [u8]) -> usize
    requires { (least ≤ length_of bytes.old) × (length_of bytes.old ≤ 65536) × (at + 65536 < 2 ^ 63) }
    ensures { result ≤ 65536 }
{
    let mut done: usize = 0;
    // `read_exact_at` would not say how much it read.
    while done < least {
        // nothing where it fails or the file ends
        let n = file
            .read_at(&mut bytes[done..], at + done as u64)
            .unwrap_or(0);
        if n == 0 {
            return done;
        }
        done += n;
    }
    done
}
