ghost use Rattle.std.specs.Prelude.{◌≡◌};
ghost use Rattle.dp_cli.specs.Refusal.{word_refusal, fetch_refusal};

use crate::Status;
use dp_base::Memory;
use dp_cert::CertFault;
use dp_check::Reason;
use dp_io::FetchFault;
use dp_lines::FileWhy;
use dp_meaning::Why;
use dp_model::{Limit, TooLarge};
use dp_policy::PolicyFault;
use dp_reader::ModelFault;
use dp_words::WordFault;
use dp_writer::MakeFault;

/// What a file is to the job that asks for it.
#[derive(Clone, Copy, Debug, PartialEq, Eq)]
pub enum FileRole {
    /// The model, which a job asks for first.
    Model,
    /// The second file, as a certificate.
    Second,
}

/// What is wrong with the texts that a job was given.
#[derive(Clone, Copy, Debug, PartialEq, Eq)]
pub enum JobFault {
    /// The first file is no model: what is wrong, and where. Lines and columns count from 1.
    BadModel { line: u32, column: u32, why: Why },
    /// The second file has a line that is not as required. Lines count from 1.
    BadFile { line: u32, why: FileWhy },
    /// A limit is passed.
    TooLarge(TooLarge),
    /// The second file is the text of a certificate that is not valid, for this first reason.
    Rejected(Reason),
}

/// Why a command gave no text. Each is told by one line.
#[derive(Clone, Copy, Debug, PartialEq, Eq)]
pub enum Refusal {
    /// The words ask for no job.
    Usage,
    /// The fetch of the file failed.
    Read(FileRole),
    /// Something is wrong with the texts, or a file is too long.
    Fault(JobFault),
    /// Memory ran out.
    Memory,
}

impl From<Memory> for Refusal {
    ghost use Rattle.dp_cli.specs.declared.refusal.Refusal.TheVariants as refusals;

    ghost from_gives = { λ _ refusal. refusal ≡ refusals.Memory };

    fn from(_: Memory) -> Refusal {
        Refusal::Memory
    }
}

impl From<WordFault> for Refusal {
    ghost from_gives = { λ fault refusal. refusal ≡ word_refusal fault };

    fn from(fault: WordFault) -> Refusal {
        match fault {
            WordFault::Usage => Refusal::Usage,
            WordFault::Memory => Refusal::Memory,
        }
    }
}

impl From<ModelFault> for Refusal {
    ghost use Rattle.dp_cli.specs.Refusal.{model_refusal};

    ghost from_gives = { λ fault refusal. refusal ≡ model_refusal fault };

    fn from(fault: ModelFault) -> Refusal {
        match fault {
            ModelFault::At { line, column, why } => {
                Refusal::Fault(JobFault::BadModel { line, column, why })
            }
            ModelFault::TooLarge(passed) => Refusal::Fault(JobFault::TooLarge(passed)),
            ModelFault::Memory => Refusal::Memory,
        }
    }
}

impl From<PolicyFault> for Refusal {
    ghost use Rattle.dp_cli.specs.Refusal.{policy_refusal};

    ghost from_gives = { λ fault refusal. refusal ≡ policy_refusal fault };

    fn from(fault: PolicyFault) -> Refusal {
        match fault {
            PolicyFault::At { line, why } => Refusal::Fault(JobFault::BadFile { line, why }),
            PolicyFault::TooLarge(passed) => Refusal::Fault(JobFault::TooLarge(passed)),
            PolicyFault::Memory => Refusal::Memory,
        }
    }
}

impl From<CertFault> for Refusal {
    ghost use Rattle.dp_cli.specs.Refusal.{certificate_refusal};

    ghost from_gives = { λ fault refusal. refusal ≡ certificate_refusal fault };

    fn from(fault: CertFault) -> Refusal {
        match fault {
            CertFault::At { line, why } => Refusal::Fault(JobFault::BadFile { line, why }),
            CertFault::TooLarge(passed) => Refusal::Fault(JobFault::TooLarge(passed)),
            CertFault::Memory => Refusal::Memory,
        }
    }
}

impl From<MakeFault> for Refusal {
    ghost use Rattle.dp_cli.specs.Refusal.{made_refusal};

    ghost from_gives = { λ fault refusal. refusal ≡ made_refusal fault };

    fn from(fault: MakeFault) -> Refusal {
        match fault {
            MakeFault::TooLarge(passed) => Refusal::Fault(JobFault::TooLarge(passed)),
            MakeFault::Memory => Refusal::Memory,
        }
    }
}

impl From<JobFault> for Refusal {
    ghost use Rattle.dp_cli.specs.declared.refusal.Refusal.TheVariants as refusals;

    ghost from_gives = { λ fault refusal. refusal ≡ refusals.Fault fault };

    fn from(fault: JobFault) -> Refusal {
        Refusal::Fault(fault)
    }
}

impl From<TooLarge> for Refusal {
    ghost use Rattle.dp_cli.specs.declared.refusal.JobFault.TheVariants as job_faults;
    ghost use Rattle.dp_cli.specs.declared.refusal.Refusal.TheVariants as refusals;

    ghost from_gives = { λ passed refusal. refusal ≡ refusals.Fault (job_faults.TooLarge passed) };

    fn from(passed: TooLarge) -> Refusal {
        Refusal::Fault(JobFault::TooLarge(passed))
    }
}

impl JobFault {
    ghost use Rattle.dp_cli.specs.Refusal.{fault_status};

    /// The exit status of a call that tells it.
    pub(crate) fn status(self) -> Status
        ensures { result ≡ fault_status self }
    {
        match self {
            JobFault::BadModel { .. } => Status::BadModel,
            JobFault::BadFile { .. } => Status::BadFile,
            JobFault::TooLarge(_) => Status::TooLarge,
            JobFault::Rejected(_) => Status::Rejected,
        }
    }
}

impl Refusal {
    /// The refusal of a file that was not given.
    pub(crate) fn of_fetch(role: FileRole, fault: FetchFault) -> Refusal
        ensures { result ≡ fetch_refusal role fault }
    {
        match fault {
            FetchFault::Failed => Refusal::Read(role),
            FetchFault::TooLong(count) => Refusal::Fault(JobFault::TooLarge(TooLarge {
                what: role.limit(),
                count: count as u128,
            })),
            FetchFault::Memory => Refusal::Memory,
        }
    }
}

impl FileRole {
    ghost use Rattle.dp_cli.specs.Refusal.{role_limit, most_bytes, read_line};

    /// The limit on the bytes of such a file.
    pub(crate) fn limit(self) -> Limit
        ensures { result ≡ role_limit self }
    {
        match self {
            FileRole::Model => Limit::ModelBytes,
            FileRole::Second => Limit::FileBytes,
        }
    }

    /// The most bytes that such a file may have.
    pub(crate) fn most_bytes(self) -> u64
        ensures { result ≡ most_bytes self }
    {
        match self {
            FileRole::Model => 1 << 26,
            FileRole::Second => 1 << 28,
        }
    }

    /// The line that tells that such a file could not be read: the number of the fetch.
    pub(crate) fn read_line(self) -> &'static str
        ensures { result.now ≡ read_line self }
    {
        match self {
            FileRole::Model => "refused read 1\n",
            FileRole::Second => "refused read 2\n",
        }
    }
}
