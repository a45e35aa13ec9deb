//! What a command puts out, and how it ends.

ghost use Rattle.std.specs.Prelude.{◌≡◌, IfOk, flat_map, true};
ghost use Rattle.opfs_commands.specs.Numbers.{may_generate};
ghost use Rattle.opfs_gen.specs.Summing.{gen_text};
ghost use Rattle.opfs_outside.specs.Turns.{of_source};
ghost use Rattle.opfs_script_kept.specs.Reading.Kept.{seen};
ghost use Rattle.opfs_judge.specs.Verdicts.{IsJudged};
ghost use Rattle.opfs_print.specs.Status.{status_text};
ghost use Rattle.opfs_print.specs.declared.end.End.TheVariants as end;
ghost use Rattle.opfs_top.specs.Answers.{Outcome};
ghost use Rattle.opfs_top.specs.Doing.{IsRefusal, IsTrialText, IsVerdictText, TaskEnded, verdict_line};

use crate::input::{Input, read_all};
use crate::parts::parts;
use crate::status::Status;
use opfs_base::Bytes;
use opfs_commands::Generation;
use opfs_desk_runs::{generate, try_script};
use opfs_judge::{Verdict, judge, judge_packed};
use opfs_outside::{Gate, Source};
use opfs_print::{BadScript, End, status_line, transcript};
use opfs_script::{Script, ScriptRefusal, read_script};
use opfs_script_kept::{KeptScript, read_kept};
use std::alloc::{AllocError, Global};
use std::sync::Wait;
use std::thread::Threads;

/// How a command ends, and what it is to put out.
#[derive(Drop)]
pub struct Answer {
    pub status: Status,
    pub text: Bytes,
}

/// What a script is read for.
#[derive(Clone, Copy, PartialEq, Eq)]
pub enum Task {
    /// To run it over an empty store.
    Try,
    /// To judge the transcript that stands behind it.
    Judge,
}

/// A status line.
pub fn line_of(alloc: Global, end: End) -> Result<Bytes, AllocError>
    ensures { IfOk result (λ text. text ≡ status_text end) }
{
    let mut text = Vec::new(alloc);
    status_line(alloc, &end, &mut text)?;
    Ok(Bytes::from_vec(text))
}

/// The line that says why a script is refused.
fn refusal(alloc: Global, why: ScriptRefusal) -> Result<Bytes, AllocError>
    ensures { IfOk result (λ text. IsRefusal why text) }
{
    let told = match why {
        ScriptRefusal::NotJson => BadScript::NotJson,
        ScriptRefusal::BadShape(agent, step) => BadScript::BadShape(agent, step),
        ScriptRefusal::UnknownStep(agent, step) => BadScript::UnknownStep(agent, step),
        ScriptRefusal::BadOrigin(agent) => BadScript::BadOrigin(agent),
        ScriptRefusal::TooMany => BadScript::TooMany,
        ScriptRefusal::NoMemory => return Err(AllocError),
    };
    let text = line_of(alloc, End::Script(told))?;
    Ok(text)
}

/// The transcript of a trial of a script.
fn trial_text<R: AllocGlobal + Threads + Wait + Sync, G: Gate>(
    rt: &R,
    script: &Script,
    gate: &G,
) -> Result<Bytes, AllocError>
    ensures { IfOk result (λ text. IsTrialText script.now text) }
{
    let history = try_script(rt, script, gate)?;
    let mut text = Vec::new(rt.alloc());
    transcript(rt.alloc(), &history, &mut text)?;
    Ok(Bytes::from_vec(text))
}

/// The answer to bytes that are refused as a script.
pub fn refused(alloc: Global, why: ScriptRefusal) -> Result<Answer, AllocError>
    ensures status { IfOk result (λ answer. answer.status ≡ Status.Script) }
    ensures text { IfOk result (λ answer. IsRefusal why answer.text) }
{
    let text = refusal(alloc, why)?;
    Ok(Answer {
        status: Status::Script,
        text,
    })
}

/// Runs the script that bytes are over an empty store.
fn try_bytes<R: AllocGlobal + Threads + Wait + Sync, G: Gate>(
    rt: &R,
    bytes: &[u8],
    gate: &G,
) -> Result<Answer, AllocError>
    ensures { IfOk result (λ answer. Outcome Task.Try bytes.now answer.status answer.text) }
{
    match read_script(rt.alloc(), bytes) {
        Ok(script) => {
            let text = trial_text(rt, &script, gate)?;
            Ok(Answer {
                status: Status::Done,
                text,
            })
        }
        Err(why) => {
            let answer = refused(rt.alloc(), why)?;
            Ok(answer)
        }
    }
}

/// The line of a verdict.
fn verdict_text(alloc: Global, verdict: Verdict) -> Result<Bytes, AllocError>
    ensures { IfOk result (λ text. text ≡ verdict_line verdict) }
{
    let line = match verdict {
        Verdict::Yes => "yes\n",
        Verdict::No => "no\n",
        Verdict::Unsettled => "unsettled\n",
    };
    let text = Bytes::copy_of(alloc, line.as_bytes())?;
    Ok(text)
}

/// The verdict on a script's transcript, however the script is kept.
fn judged(alloc: Global, script: &KeptScript, transcript: &[u8]) -> Result<Verdict, AllocError>
    ensures { IfOk result (λ verdict. IsJudged (seen script.now) transcript.now verdict) }
{
    match script {
        KeptScript::Packed(script) => judge_packed(alloc, script, transcript),
        KeptScript::Whole(script) => judge(alloc, script, transcript),
    }
}

/// The line of the verdict on a script's transcript.
fn judgement_text(
    alloc: Global,
    script: &KeptScript,
    transcript: &[u8],
) -> Result<Bytes, AllocError>
    ensures { IfOk result (λ text. IsVerdictText (seen script.now) transcript.now text) }
{
    let verdict = judged(alloc, script, transcript)?;
    let text = verdict_text(alloc, verdict)?;
    Ok(text)
}

/// Judges the transcript that stands behind the first 0 of bytes, as one of the script that stands before it.
fn judge_parts(alloc: Global, bytes: &[u8]) -> Result<Answer, AllocError>
    ensures { IfOk result (λ answer. Outcome Task.Judge bytes.now answer.status answer.text) }
{
    let (script, transcript) = parts(bytes);
    match read_kept(alloc, script) {
        Ok(script) => {
            let text = judgement_text(alloc, &script, transcript)?;
            Ok(Answer {
                status: Status::Done,
                text,
            })
        }
        Err(why) => {
            let answer = refused(alloc, why)?;
            Ok(answer)
        }
    }
}

/// Does with bytes that were read whole what they were read for.
fn serve<R: AllocGlobal + Threads + Wait + Sync, G: Gate>(
    rt: &R,
    task: Task,
    bytes: &[u8],
    gate: &G,
) -> Result<Answer, AllocError>
    ensures { IfOk result (λ answer. Outcome task bytes.now answer.status answer.text) }
{
    match task {
        Task::Try => try_bytes(rt, bytes, gate),
        Task::Judge => judge_parts(rt.alloc(), bytes),
    }
}

/// How a command ends whose script the source gives, and what it is to put out.
pub fn answer_script<R: AllocGlobal + Threads + Wait + Sync, S: Source, G: Gate>(
    rt: &R,
    task: Task,
    source: &mut S,
    gate: &G,
) -> Result<Answer, AllocError>
    ensures { IfOk result (λ answer. TaskEnded task (of_source S.Source source.old source.new) answer.status answer.text) }
{
    let alloc = rt.alloc();
    let (status, end) = match read_all(alloc, source) {
        Input::Whole(bytes) => return serve(rt, task, bytes.as_slice(), gate),
        Input::TooFar => (Status::Script, End::Script(BadScript::TooMany)),
        Input::Failed => (Status::Source, End::Source),
        Input::NoMemory => return Err(AllocError),
    };
    let text = line_of(alloc, end)?;
    Ok(Answer { status, text })
}

/// The answer to words that ask for a large run.
pub fn answer_large_run<R: AllocGlobal + Threads + Wait + Sync, G: Gate>(
    rt: &R,
    numbers: Generation,
    gate: &G,
) -> Result<Answer, AllocError>
    requires { may_generate numbers ≡ true }
    ensures status { IfOk result (λ answer. answer.status ≡ Status.Done) }
    ensures text { IfOk result (λ answer. answer.text ≡ gen_text numbers.seed numbers.agents numbers.rounds) }
{
    let Generation {
        seed,
        agents,
        rounds,
    } = numbers;
    let text = generate(rt, seed, agents, rounds, gate)?;
    Ok(Answer {
        status: Status::Done,
        text,
    })
}

/// The answer to words that ask for nothing.
pub fn answer_nothing(alloc: Global) -> Result<Answer, AllocError>
    ensures status { IfOk result (λ answer. answer.status ≡ Status.Usage) }
    ensures text { IfOk result (λ answer. answer.text ≡ status_text end.Usage) }
{
    let text = line_of(alloc, End::Usage)?;
    Ok(Answer {
        status: Status::Usage,
        text,
    })
}
