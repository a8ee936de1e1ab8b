//! Which of the standard streams lead to the file of a job.
ghost use Rattle.std.specs.Prelude.{◌≡◌, false, true, codes};
ghost use Rattle.hpb_program.specs.Program.{is_any};

use hpb_words::Job;
use std::env::{Env, FillError};
use std::fs::{self, Files, Metadata};
use std::os::unix::fs::MetadataExt;

/// The end of the name that a file has while `format` makes it: `.new`, behind its own name.
const BESIDE: &[u8] = b".new";

/// The character between the name of an option and its value, if these are one word.
const VALUE: u8 = b'=';

/// How many bytes a word that names a file may have: some for the name of an option, and those of a path.
const WORD_BYTES: usize = 64 + libc::PATH_MAX;

/// A standard stream, and the name under which the system shows its file.
#[derive(Clone, Copy)]
struct Named {
    stream: i32,
    path: &'static str,
}

const INPUT: Named = Named {
    stream: libc::STDIN_FILENO,
    path: "/dev/fd/0",
};

const OUTPUT: Named = Named {
    stream: libc::STDOUT_FILENO,
    path: "/dev/fd/1",
};

const ERRORS: Named = Named {
    stream: libc::STDERR_FILENO,
    path: "/dev/fd/2",
};

impl Named {
    /// Whether the stream leads to this file, and the file is a regular one; other files may stand behind a stream and
    /// a path at once. If the system doesn't show the stream's file, it counts as this one, unless the stream is a
    /// pipe.
    fn leads_to<H: Files>(self, rt: &H, file: &Metadata) -> bool {
        match fs::metadata(rt, self.path) {
            Ok(found) => file.is_file() && found.dev() == file.dev() && found.ino() == file.ino(),
            Err(_) => file.is_file() && !is_pipe(self.stream),
        }
    }

    /// The same for a file of which only the whole path is known. If the stream's file has several names, it counts as
    /// this file, since the system shows only one of them.
    fn leads_to_path<H: Files>(self, rt: &H, path: &[u8]) -> bool {
        let Ok(found) = fs::metadata(rt, self.path) else {
            return !is_pipe(self.stream);
        };
        let mut name = [0; libc::PATH_MAX];
        let count = usize::try_from(os::readlink(self.path.as_bytes(), &mut name)).unwrap_or(0);
        found.is_file() && (found.nlink() > 1 || &name[..count.min(libc::PATH_MAX)] == path)
    }
}

/// Whether an open stream is a pipe. The call only advises how the stream will be read, which changes nothing.
fn is_pipe(stream: i32) -> bool {
    libc::posix_fadvise(stream, 0, 0, libc::POSIX_FADV_NORMAL) == libc::ESPIPE
}

/// Which of the standard streams lead to a file.
#[derive(Clone, Copy, Debug, Default, PartialEq, Eq)]
pub struct Led {
    pub(crate) input: bool,
    pub(crate) output: bool,
    pub(crate) errors: bool,
    /// Whether they lead to the file that `format` is making, under its name with `.new`, and not to the finished one.
    pub(crate) is_new: bool,
}

impl Led {
    /// The streams that lead to the file of a job, or to the one that `format` is making. There are none if none of
    /// these leads to a file that the words may name.
    pub(crate) fn to_job<H: Files>(self, rt: &H, job: Job<'_>, file: &str) -> Led
        ensures { is_any result ≡ true → is_any self ≡ true }
    {
        if !self.is_any() {
            return self;
        }
        match job {
            Job::Format { .. } => Led::to_either(rt, file.as_bytes()),
            _ => Led::to_file(rt, file.as_bytes()),
        }
    }

    /// The streams that lead to any file that a word names, as a whole or behind a `=`, or to the one that `format`
    /// would make. If words ask for nothing, it isn't known which one names the file.
    pub fn by_words<H: Env + Files>(rt: &H) -> Led {
        let mut led = Led::default();
        let mut word = [0; WORD_BYTES];
        // The first one is the program's name.
        for at in 1..usize::MAX {
            match rt.arg(at, &mut word) {
                Ok(length) => led = led.or(Led::by_word(rt, &word[..length])),
                Err(FillError::TooLong) => {}
                Err(FillError::NotPresent) => return led,
            }
        }
        led
    }

    fn by_word<H: Files>(rt: &H, word: &[u8]) -> Led {
        let led = Led::to_either(rt, word);
        match word.iter().position(|byte| *byte == VALUE) {
            Some(end) => led.or(Led::to_either(rt, &word[end + 1..])),
            None => led,
        }
    }

    /// The streams that lead to the file of a path, or to the one under its name with `.new`.
    fn to_either<H: Files>(rt: &H, path: &[u8]) -> Led {
        let led = Led::to_file(rt, path);
        let mut beside = [0; WORD_BYTES];
        let length = path.len() + BESIDE.len();
        if length > WORD_BYTES {
            return led;
        }
        beside[..path.len()].copy_from_slice(path);
        beside[path.len()..length].copy_from_slice(BESIDE);
        Led {
            is_new: !led.is_any(),
            ..led.or(Led::to_file(rt, &beside[..length]))
        }
    }

    /// The streams that lead to the file of a path. If there is no such file, none does.
    fn to_file<H: Files>(rt: &H, path: &[u8]) -> Led {
        match str::from_utf8(path) {
            Ok(path) => Led::to_text(rt, path),
            Err(_) => Led::to_bytes(rt, path),
        }
    }

    fn to_text<H: Files>(rt: &H, path: &str) -> Led {
        match fs::metadata(rt, path) {
            Ok(found) => Led {
                input: INPUT.leads_to(rt, &found),
                output: OUTPUT.leads_to(rt, &found),
                errors: ERRORS.leads_to(rt, &found),
                is_new: false,
            },
            Err(_) => Led::default(),
        }
    }

    /// The same for a path that isn't text.
    fn to_bytes<H: Files>(rt: &H, path: &[u8]) -> Led {
        let mut whole = [0; libc::PATH_MAX];
        if os::realpath(path, &mut whole) != 0 {
            return Led::default();
        }
        let path = &whole[..os::name_length(&whole)];
        Led {
            input: INPUT.leads_to_path(rt, path),
            output: OUTPUT.leads_to_path(rt, path),
            errors: ERRORS.leads_to_path(rt, path),
            is_new: false,
        }
    }

    /// The streams of both.
    fn or(self, other: Led) -> Led {
        Led {
            input: self.input || other.input,
            output: self.output || other.output,
            errors: self.errors || other.errors,
            is_new: self.is_new && other.is_new,
        }
    }

    /// Whether any stream leads there.
    pub(crate) fn is_any(self) -> bool
        ensures { result ≡ is_any self }
    {
        self.input || self.output || self.errors
    }

    /// The stream that the message names. Standard error gets the message, so it doesn't lead there itself.
    pub(crate) fn stream(self) -> &'static str
        requires { self.errors ≡ false }
        ensures output { self.output ≡ true → result.now ≡ codes "standard output" }
        ensures input { self.output ≡ false → result.now ≡ codes "standard input" }
    {
        if self.output {
            "standard output"
        } else {
            "standard input"
        }
    }
}
