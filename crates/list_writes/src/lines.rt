// The output. The lines of sectors are gathered in a buffer, which is printed when it is full and at the end.
ghost use Rattle.std.specs.Prelude.{◌≡◌, ◌+◌, ◌≤◌, OnOk, length as length_of};

use decision::Refusal;
use std::io;

// The lines that are not printed yet.
#[derive(Drop)]
pub struct Lines {
    text: [u8; 65536],
    used: usize,
    ghost in_range: { used ≤ 65536 },
}

impl Lines {
    pub fn new() -> Lines {
        Lines {
            text: [0u8; 65536],
            used: 0,
        }
    }

    // A sector's line.
    pub fn push(&mut self, rt: &impl Print, offset: u64, is_data: bool) -> io::Result<()> {
        let mut digits = [0u8; 20];
        let start = itoa::write_digits(offset, &mut digits, 20);
        self.put(rt, &digits[start..])?;
        self.put(rt, if is_data { b" D\n" } else { b" Z\n" })
    }

    // What is there is printed first where the bytes do not fit behind it.
    fn put(&mut self, rt: &impl Print, bytes: &[u8]) -> io::Result<()>
        requires { length_of bytes.now ≤ 65536 }
    {
        if bytes.len() > self.text.len() - self.used {
            self.flush(rt)?;
        }
        let end = self.used + bytes.len();
        self.text[self.used..end].copy_from_slice(bytes);
        self.used = end;
        Ok(())
    }

    pub fn flush(&mut self, rt: &impl Print) -> io::Result<()>
        ensures { OnOk result (self.new.used ≡ 0) }
    {
        rt.write_all(&self.text[..self.used])?;
        self.used = 0;
        Ok(())
    }
}

pub fn refused(rt: &impl Print, refusal: Refusal) -> io::Result<()> {
    println!(rt; "refused {}", refusal.number())
}

pub fn unreadable(rt: &impl Print) -> io::Result<()> {
    println!(rt; "unreadable")
}
