use crate::job::Job;
use crate::workload::Workload;

/// How many items a run that is to be stopped has if no number is given, so many that the flag comes first.
const MANY: i64 = 1_000_000_000;

/// How many rounds there are if none are asked for.
const ROUNDS: i64 = 4;

/// What is asked for.
#[derive(Clone, Copy)]
pub(crate) enum Task {
    /// Each workload with few items: the sums alone.
    Check,
    /// How long a job goes on when another thread sets a flag to stop it.
    Stop(Job),
    /// How long a job takes, in so many rounds.
    Measure(Job, i64),
}

/// What the words of a command line ask for, of which the first is the program's. It is `None` if they don't say.
pub(crate) fn task_of(words: &[String]) -> Option<Task> {
    let (_, words) = words.split_first()?;
    let (word, rest) = words.split_first()?;
    match word.as_str() {
        "check" if rest.is_empty() => Some(Task::Check),
        "stop" => stopped_by(rest),
        _ => measured_by(words),
    }
}

fn stopped_by(words: &[String]) -> Option<Task> {
    if words.len() > 3 {
        return None;
    }
    Some(Task::Stop(job_of(words, Some(MANY))?))
}

fn measured_by(words: &[String]) -> Option<Task> {
    if words.len() > 4 {
        return None;
    }
    Some(Task::Measure(job_of(words, None)?, number_at(words, 3, ROUNDS)?))
}

/// If no number of items is given, there are so many, or the usual ones.
fn job_of(words: &[String], most: Option<i64>) -> Option<Job> {
    let workload = Workload::named(words.first()?.as_str())?;
    let workers = words.get(1)?.parse::<u64>().ok()?;
    let items = number_at(words, 2, most.unwrap_or(workload.usual_items()))?;
    Some(Job {
        workload,
        workers,
        items,
    })
}

/// The number at this place, or the usual one if no word is there.
fn number_at(words: &[String], place: usize, usual: i64) -> Option<i64> {
    match words.get(place) {
        Some(word) => word.parse::<i64>().ok(),
        None => Some(usual),
    }
}
