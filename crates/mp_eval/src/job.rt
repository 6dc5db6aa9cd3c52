//! The name of a run's job.

ghost use Rattle.std.specs.Prelude.{◌≡◌, ◌≤◌};
ghost use Rattle.std.specs.Option.{option_map};
ghost use Rattle.std.specs.Path.{rsplit_once};
ghost use Rattle.mp_eval.specs.Job as job;

const SLASH: u8 = b'/';

const POINT: u8 = b'.';

/// What stands before and behind the last byte of that code, if there is one.
fn split_at_last(name: &[u8], code: u8) -> Option<(&[u8], &[u8])>
    ensures { option_map (λ halves. (halves.0.now, halves.1.now)) result ≡ rsplit_once code name.now }
{
    let mut end = name.len();
    'bytes: while end > 0 {
        end -= 1;
        if name[end] == code {
            return Some((&name[..end], &name[end + 1..]));
        }
    }
    None
}

fn without_directories(name: &[u8]) -> &[u8]
    ensures { result.now ≡ job.without_directories name.now }
{
    match split_at_last(name, SLASH) {
        Some((_, file)) => file,
        None => name,
    }
}

fn without_extension(name: &[u8]) -> &[u8]
    ensures { result.now ≡ job.without_extension name.now }
{
    match split_at_last(name, POINT) {
        Some((stem, _)) => stem,
        None => name,
    }
}

/// What stands behind the last slash of the main file's name, up to the last point there.
#[tactic(auto, unfolding(crate::specs::Job::job_of))]
pub(crate) fn job_of(name: &[u8]) -> &[u8]
    ensures { result.now ≡ job.job_of name.now }
{
    without_extension(without_directories(name))
}
