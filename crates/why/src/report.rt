// The answer, as a table for people.

ghost use Rattle.std.specs.Prelude.{◌≡◌, IfOk, map, string_bytes};
ghost use Rattle.preview.specs.Verdicts.{verdict_lines};
ghost use Rattle.preview.specs.declared.Decision.{Decision};
ghost use Rattle.preview.specs.declared.Verdict.{Verdict};
ghost use Rattle.why.specs.Columns.{IsColumn, IsPlain, IsNamed, AreColumns};
ghost use Rattle.why.specs.Decisions.{prepared_for, decided_on};

use crate::wording::Stamps;
use judges::{Hold, Judge, ListJudge, Oldest, RisingJudge, Thorough};
use preview::{Decision, Verdict, preview, staying};
use question::Case;
use std::alloc::{AllocError, Global};
use std::str::Lines;

// How many judges are asked.
const JUDGES: usize = 4;

// What one judge says, version by version, in words, and what it leaves.
//
// The words are one text, with a line for each of the case's versions in their order, since they come judge by judge and
// are printed version by version. A `String` for each version would be no plainer, and take more memory.
#[derive(Drop)]
struct Column {
    judge: &'static str,
    words: String,
    left: Vec<u64>,
}

// What every judge says of one case, printed.
pub fn print_answer(rt: &HostRuntime, case: &Case) -> anyhow::Result<()> {
    let columns = columns_on(rt.alloc(), case)?;
    // Collected before anything is printed: where memory runs out, nothing is.
    let words = columns.iter().map(|column| column.words.as_str().lines());
    let words = words.collect::<Vec<_>>(rt.alloc())?;
    let cutoff = case.cutoff;
    let sessions = Stamps(case.sessions.as_slice());
    println!(rt; "cutoff {cutoff}, open sessions at{sessions}")?;
    print_table(rt, case, &columns, words)?;
    print_left(rt, &columns)?;
    println!(rt; "kept for N: the open session at N reads this version")?;
    println!(rt; "kept: a newer version is above the cutoff, or the judge names no session")?;
    Ok(())
}

// A column for each judge, under its name: new ones, and a new rising judge that is held back.
fn columns_on(heap: Global, case: &Case) -> Result<[Column; JUDGES], AllocError>
    ensures { IfOk result (λ columns. AreColumns columns case.now) }
{
    let mut held = Hold::new(RisingJudge::new());
    held.set(true);
    Ok([
        plain(heap, case, "oldest", Oldest::new())?,
        named(heap, case, "list", ListJudge::new())?,
        named(heap, case, "rising", RisingJudge::new())?,
        plain(heap, case, "held", held)?,
    ])
}

// By a judge that names no stamps.
//
// `plain` and `named` stay two, over one `column_of`: each says in its contract in which words it puts a decision. A method
// of every judge that names a stamp or none would make them one, and would be no plainer: it would ask the kinds that
// never name one for a name.
fn plain<J: Judge + Drop>(
    heap: Global,
    case: &Case,
    name: &'static str,
    mut judge: J,
) -> Result<Column, AllocError>
    ensures { IfOk result (λ column. IsPlain column name.now J.Judge.kind (J.Judge.means judge) case.now) }
{
    let decisions = decisions_on(heap, case, &mut judge)?;
    column_of(heap, name, decisions.as_slice(), Verdict::plain)
}

// By a judge that names the stamp for which it keeps a version.
fn named<J: Thorough + Drop>(
    heap: Global,
    case: &Case,
    name: &'static str,
    mut judge: J,
) -> Result<Column, AllocError>
    ensures { IfOk result (λ column. IsNamed column name.now J.Judge.kind (J.Judge.means judge) case.now) }
{
    let decisions = decisions_on(heap, case, &mut judge)?;
    column_of(heap, name, decisions.as_slice(), |decision| {
        Verdict::named(&judge, decision)
    })
}

// What a judge decides on the versions of a case.
fn decisions_on<J: Judge>(
    heap: Global,
    case: &Case,
    judge: &mut J,
) -> Result<Vec<Decision>, AllocError>
    ensures judge { J.Judge.means judge.new ≡ prepared_for case.now J.Judge.kind (J.Judge.means judge.old) }
    ensures decisions { IfOk result (λ v. v.items ≡ decided_on case.now (J.Judge.kind.drops (J.Judge.means judge.new))) }
{
    let sessions = case.sessions.as_slice();
    preview(heap, judge, case.cutoff, sessions, case.versions.as_slice())
}

// Decisions in the words of their verdicts, beside what they leave.
fn column_of<V: Fn(Decision) -> Verdict>(
    heap: Global,
    judge: &'static str,
    decisions: &[Decision],
    verdict: V,
) -> Result<Column, AllocError>
    requires { V.IsAlwaysCallable verdict }
    ensures { (f : Decision → Verdict) → ((d : Decision) (v : Verdict) → V.post verdict d v → v ≡ f d) →
        IfOk result (λ column. IsColumn column judge.now f decisions.now) }
{
    let words = words_of(heap, verdicts_on(heap, decisions, verdict)?.as_slice())?;
    Ok(Column {
        judge,
        words,
        left: staying(heap, decisions)?,
    })
}

// A verdict on each decision.
fn verdicts_on<V: Fn(Decision) -> Verdict>(
    heap: Global,
    decisions: &[Decision],
    verdict: V,
) -> Result<Vec<Verdict>, AllocError>
    requires { V.IsAlwaysCallable verdict }
    ensures { (f : Decision → Verdict) → ((d : Decision) (v : Verdict) → V.post verdict d v → v ≡ f d) →
        IfOk result (λ verdicts. verdicts.items ≡ map f decisions.now) }
{
    let verdicts = decisions.iter().map(|decision| verdict(*decision));
    verdicts.collect(heap)
}

// The words of verdicts, a line for each.
fn words_of(heap: Global, verdicts: &[Verdict]) -> Result<String, AllocError>
    ensures { IfOk result (λ words. string_bytes words ≡ verdict_lines verdicts.now) }
{
    let mut words = String::new(heap);
    for verdict in verdicts {
        writeln!(words, "{verdict}")?;
    }
    Ok(words)
}

// A row for each version, with the next line of each judge's words. Printed as it goes: a `Display` of the table would be no
// plainer, as it would be made of the same rows.
fn print_table(
    rt: &HostRuntime,
    case: &Case,
    columns: &[Column],
    mut words: Vec<Lines<'_>>,
) -> anyhow::Result<()> {
    print!(rt; "| {:>8} |", "version")?;
    for column in columns {
        let judge = column.judge;
        print!(rt; " {judge:<14}|")?;
    }
    println!(rt; "")?;
    for stamp in case.versions.iter() {
        print!(rt; "| {stamp:>8} |")?;
        for lines in words.iter_mut() {
            if let Some(line) = lines.next() {
                print!(rt; " {line:<14}|")?;
            }
        }
        println!(rt; "")?;
    }
    Ok(())
}

// What each judge would leave.
fn print_left(rt: &HostRuntime, columns: &[Column]) -> anyhow::Result<()> {
    for column in columns {
        let judge = column.judge;
        let left = Stamps(column.left.as_slice());
        println!(rt; "left by {judge}:{left}")?;
    }
    Ok(())
}
