// The C interface: a slice is a pointer and a length. Each export is the function of `stage` of the
// same name, with the same clauses, in a crate of its own, since a crate that other crates use is
// no static library.
// Design: five functions that differ in the operation, since C calls each by its name.
#![tactic(auto)]

ghost use Rattle.std.specs.Prelude.{◌≡◌};
ghost use Rattle.model.specs.Answer.{answer_of, sheet_of, buffer_after, number_returned};
ghost use Rattle.model.specs.Thin.{thin_of};
ghost use Rattle.model.specs.Strict.{strict_answer_of, strict_sheet_of};

#[unsafe(no_mangle)]
pub extern "C" fn scope_deps_answer(job: &[u8], out: &mut [u8]) -> i64
    ensures { (result ≡ number_returned (answer_of job.now out.old)) ×
        (out.new ≡ buffer_after (answer_of job.now out.old) out.old) }
{
    stage::scope_deps_answer(job, out)
}

#[unsafe(no_mangle)]
pub extern "C" fn scope_deps_sheet(job: &[u8], out: &mut [u8]) -> i64
    ensures { (result ≡ number_returned (sheet_of job.now out.old)) ×
        (out.new ≡ buffer_after (sheet_of job.now out.old) out.old) }
{
    stage::scope_deps_sheet(job, out)
}

#[unsafe(no_mangle)]
pub extern "C" fn scope_deps_strict_answer(job: &[u8], out: &mut [u8]) -> i64
    ensures { (result ≡ number_returned (strict_answer_of job.now out.old)) ×
        (out.new ≡ buffer_after (strict_answer_of job.now out.old) out.old) }
{
    stage::scope_deps_strict_answer(job, out)
}

#[unsafe(no_mangle)]
pub extern "C" fn scope_deps_strict_sheet(job: &[u8], out: &mut [u8]) -> i64
    ensures { (result ≡ number_returned (strict_sheet_of job.now out.old)) ×
        (out.new ≡ buffer_after (strict_sheet_of job.now out.old) out.old) }
{
    stage::scope_deps_strict_sheet(job, out)
}

#[unsafe(no_mangle)]
pub extern "C" fn scope_deps_thin(job: &[u8], out: &mut [u8]) -> i64
    ensures { (result ≡ number_returned (thin_of job.now out.old)) ×
        (out.new ≡ buffer_after (thin_of job.now out.old) out.old) }
{
    stage::scope_deps_thin(job, out)
}
