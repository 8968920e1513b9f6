// The front, at the other ends of standard input and output.

use conversation::{Asked, Told, read_request};
use journaled::{Decided, Watch};
use std::io::{self, BufRead, BufReader, BufWriter, StdinLock, Write};

/// What comes next.
#[derive(Drop)]
pub enum Heard {
    Request(Asked),
    /// A line that is none of the requests.
    Stray,
    End,
}

/// Whoever asks for edits, and agrees to them.
#[derive(Drop)]
pub struct Front<'a> {
    rt: &'a HostRuntime,
    input: BufReader<StdinLock<'a>>,
    is_dry: bool,
    agreed: bool,
    /// What was heard in the place of an answer to what was decided.
    pub trouble: Option<io::Result<()>>,
}

impl<'a> Front<'a> {
    pub fn new(rt: &'a HostRuntime, is_dry: bool) -> io::Result<Self> {
        Ok(Front {
            rt,
            input: BufReader::new(rt.alloc(), rt.reader())?,
            is_dry,
            agreed: false,
            trouble: None,
        })
    }

    /// The next line.
    pub fn hear(&mut self) -> io::Result<Heard> {
        let mut line = Vec::new(self.rt.alloc());
        self.input.read_until(b'\n', &mut line)?;
        if line.is_empty() {
            return Ok(Heard::End);
        }
        let Some(line) = line.strip_suffix(b"\n") else {
            return Ok(Heard::Stray);
        };
        match read_request(self.rt.alloc(), line)? {
            Some(asked) => Ok(Heard::Request(asked)),
            None => Ok(Heard::Stray),
        }
    }

    pub fn tell(&self, told: Told<'_>) -> io::Result<()> {
        let mut out = BufWriter::new(self.rt.alloc(), io::writer(self.rt))?;
        writeln!(out, "{told}")?;
        out.flush()
    }

    // Whether what is decided on is to be made.
    fn ask(&mut self, decided: &Decided<'_>) -> io::Result<bool> {
        self.tell(Told::Decided(decided))?;
        match self.hear()? {
            Heard::Request(Asked::Go) => Ok(!self.is_dry),
            Heard::Request(Asked::Stop) => Ok(false),
            _ => {
                self.trouble = Some(Ok(()));
                Ok(false)
            }
        }
    }
}

impl Watch for Front<'_> {
    ghost agreed = { λ f. f.agreed };

    fn agrees(&mut self, decided: &Decided<'_>) -> bool {
        self.agreed = match self.ask(decided) {
            Ok(agreed) => agreed,
            Err(why) => {
                self.trouble = Some(Err(why));
                false
            }
        };
        self.agreed
    }
}
