// A job read through a struct that keeps its bytes together with a position in them. Its methods
// are thin: the work is that of functions of `job` and `whole_job`, which have the slice and the
// place as parameters. `read_job` is the one that others call.
#![tactic(auto)]

ghost use Rattle.std.specs.Prelude.{◌≡◌};
ghost use Rattle.job.specs.Kept.{BehindHeader};
ghost use Rattle.whole_job.specs.Reads.{ReadsJob};
ghost use Rattle.reader.specs.Reads.{ReadsHeader};

use entries::Refusal;
use fields::Read;
use job::{Header, JobHead};

// The job's bytes, and the position from which the next record is read.
#[derive(Clone, Copy)]
pub struct Reader<'a> {
    pub job: &'a [u8],
    pub at: usize,
}

impl<'a> Reader<'a> {
    // A reader that stands at the job's first byte.
    pub fn new(job: &'a [u8]) -> Reader<'a>
        ensures { (result.job ≡ job.entry) × (result.at ≡ 0) }
    {
        Reader { job, at: 0 }
    }

    // The header at the position, behind which the reader moves.
    pub fn header(&mut self) -> Read<Header>
        ensures job { self.new.job ≡ self.old.job }
        ensures header { ReadsHeader self.old.job.now self.old.at result self.new.at }
    {
        let header = job::header_at(self.job, self.at);
        self.at = job::place_after(header, self.at);
        header
    }

    // The job, of which the header has been read.
    pub fn rest(
        self,
        header: Read<Header>,
        ids: &mut [u32; 128],
        places: &mut [usize; 128],
    ) -> Result<JobHead, Refusal>
        requires { BehindHeader self.job.now self.at header }
        ensures { ReadsJob self.entry.job.now result
            ids.old ids.new places.old places.new }
    {
        whole_job::rest_at(self.job, self.at, header, ids, places)
    }
}

// The job in the slice.
pub fn read_job(
    s: &[u8],
    ids: &mut [u32; 128],
    places: &mut [usize; 128],
) -> Result<JobHead, Refusal>
    ensures { ReadsJob s.now result ids.old ids.new places.old places.new }
{
    let mut reader = Reader::new(s);
    let header = reader.header();
    reader.rest(header, ids, places)
}
