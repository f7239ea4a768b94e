// The files that words name.
ghost use Rattle.std.specs.Prelude.{◌≡◌, ◌<◌, ◌^◌};
ghost use Rattle.dt_top.specs.Files.{file_word, limit_of, refused_status};
ghost use Rattle.dt_top.specs.Lines.{read_fault_line, too_long_line};

use crate::status::Status;

/// The most bytes of a log: 64 MiB.
pub const LOG_LIMIT: u64 = 67_108_864;

/// The most bytes of every other file: 16 MiB.
pub const TEXT_LIMIT: u64 = 16_777_216;

/// A kind of file that words name.
#[derive(Clone, Copy, Debug, PartialEq, Eq)]
pub enum File {
    Model,
    Requests,
    Image,
    Log,
}

impl File {
    /// The word for the file in a printed line.
    pub fn word(self) -> &'static str
        ensures { result.now ≡ file_word self }
    {
        match self {
            File::Model => "model",
            File::Requests => "requests",
            File::Image => "image",
            File::Log => "log",
        }
    }

    /// The most bytes that such a file may have.
    pub fn limit(self) -> u64
        ensures value { result ≡ limit_of self }
        ensures small { result < 2 ^ 32 }
    {
        match self {
            File::Log => LOG_LIMIT,
            _ => TEXT_LIMIT,
        }
    }

    /// The status where the file's text is refused.
    pub fn refused_status(self) -> Status
        ensures { result ≡ refused_status self }
    {
        match self {
            File::Model => Status::ModelRefused,
            File::Requests => Status::RequestsRefused,
            File::Image => Status::InputRefused,
            File::Log => Status::InputRefused,
        }
    }

    /// The line where the file can't be read.
    pub fn read_fault_line(self) -> &'static str
        ensures { result.now ≡ read_fault_line self }
    {
        match self {
            File::Model => "read fault model\n",
            File::Requests => "read fault requests\n",
            File::Image => "read fault image\n",
            File::Log => "read fault log\n",
        }
    }

    /// The line where the file has more bytes than its limit.
    pub fn too_long_line(self) -> &'static str
        ensures { result.now ≡ too_long_line self }
    {
        match self {
            File::Model => "too long model\n",
            File::Requests => "too long requests\n",
            File::Image => "too long image\n",
            File::Log => "too long log\n",
        }
    }
}
