// The operations for C and Rust to link: numbers and slices only. Each answers the number of the refusal, 0 for none,
// and writes the rest of its answer to lent words. A lent record or answer with too few words is refused with 1, and
// nothing is touched.
#![tactic(auto)]

ghost use Rattle.std.specs.Prelude.{◌≡◌, [], ◌∷◌, ◌++◌, ◌≤◌, length};
ghost use Rattle.words.specs.Lists.{over};
ghost use Rattle.refusals.specs.Refusal.{refused_as};
ghost use Rattle.store.specs.Lent.{lent};
ghost use Rattle.reader.specs.Answers.{refusal_in};
ghost use Rattle.embed.specs.Words.{case_in, found_words, settled_words, asked_words, layers_words, length_words};
ghost use Rattle.embed.specs.Operation.{ReadOut, SettleOut, QuestionOut, LayersOut};
ghost use Rattle.embed.specs.Operation.{WriteOut, ReportOut, GenerateOut};

use layering::answer::Layers;
use program::case::Case;
use program::tables::Tables;
use reader::read::Refused;
use refusals::Refusal;
use settle::settle::Settled;
use std::array;
use store::lent::LentTables;

// The words of a case record.
const CASE_WORDS: usize = 23;

// The words of an answer that is the length of a text.
const LENGTH_WORDS: usize = 1;

// The number of the refusal of lent words that are too few.
const TOO_FEW: u32 = 1;

// The number of the refusal, 0 for none.
fn number<T: Copy>(answer: Result<T, Refusal>) -> u32
    ensures { result ≡ refused_as answer }
{
    match answer {
        Ok(_) => 0,
        Err(refusal) => u32::from(refusal),
    }
}

// The number of the refusal of a file, 0 for none.
fn number_read(found: Result<Case, Refused>) -> u32
    ensures { result ≡ refusal_in found }
{
    match found {
        Ok(_) => 0,
        Err(refused) => u32::from(refused.refusal),
    }
}

// The counts in 16 words.
fn counts_in(words: &[u64]) -> [usize; 16]
    requires { length words.now ≡ 16 }
    ensures { result ≡ words.now }
{
    array::from_fn(|i| words[i] as usize)
}

// The words of 16 counts.
fn words_of(counts: [usize; 16]) -> [u64; 16]
    ensures { result ≡ counts }
{
    counts.map(|count| count as u64)
}

// The case record in 23 words.
fn case_in(fields: &[u64]) -> Case
    requires { 23 ≤ length fields.now }
    ensures { result ≡ case_in fields.now }
{
    Case {
        atoms: fields[0] as usize,
        clauses: fields[1] as usize,
        constraints: fields[2] as usize,
        formulas: fields[3] as usize,
        plain: fields[4],
        negated: fields[5],
        nodes: counts_in(&fields[6..22]),
        edition: fields[22] as usize,
    }
}

// Puts words in front of lent ones.
fn put(answer: &mut [u64], words: &[u64])
    requires { length words.now ≤ length answer.old }
    ensures { answer.new ≡ over words.now answer.old }
{
    answer[..words.len()].copy_from_slice(words);
}

// Puts the last words of a case record: the node counts of its formulas, and its edition.
fn put_nodes(answer: &mut [u64], c: Case)
    requires { 17 ≤ length answer.old }
    ensures { answer.new ≡ over (c.nodes ++ (c.edition ∷ [])) answer.old }
{
    let nodes = words_of(c.nodes);
    put(answer, &nodes);
    put(&mut answer[16..], &[c.edition as u64]);
}

// Puts what reading answers to words: the line of a refusal, then the 23 words of the case record.
fn put_found(answer: &mut [u64], found: Result<Case, Refused>)
    requires { 24 ≤ length answer.old }
    ensures { answer.new ≡ over (found_words found) answer.old }
{
    match found {
        Ok(c) => {
            let words = [
                0,
                c.atoms as u64,
                c.clauses as u64,
                c.constraints as u64,
                c.formulas as u64,
                c.plain,
                c.negated,
            ];
            put(answer, &words);
            put_nodes(&mut answer[7..], c);
        }
        Err(refused) => {
            let mut words = [0; 24];
            words[0] = refused.line as u64;
            put(answer, &words);
        }
    }
}

// Puts what settling answers to words: the true atoms, the false atoms, the rounds, the number of decided atoms.
fn put_settled(answer: &mut [u64], settled: Result<Settled, Refusal>)
    requires { 4 ≤ length answer.old }
    ensures { answer.new ≡ over (settled_words settled) answer.old }
{
    match settled {
        Ok(a) => {
            let i = a.interpretation;
            put(
                answer,
                &[i.trues, i.falses, a.rounds as u64, a.decided as u64],
            );
        }
        Err(_) => put(answer, &[0; 4]),
    }
}

// Puts what the question answers to words: the 16 verdict numbers, the number of minimal explanations, how many are
// listed, the rounds and the decided atoms over all settings, the lowest cost and the setting that has it.
fn put_asked(answer: &mut [u64], asked: Result<question::operation::Answer, Refusal>)
    requires { 22 ≤ length answer.old }
    ensures { answer.new ≡ over (asked_words asked) answer.old }
{
    match asked {
        Ok(a) => {
            put(answer, &a.verdicts);
            let counts = [
                a.minimal,
                a.written as u64,
                a.rounds,
                a.decided,
                a.cost,
                a.cheapest,
            ];
            put(&mut answer[16..], &counts);
        }
        Err(_) => put(answer, &[0; 22]),
    }
}

// Puts what layering answers to words: 1 where the case is layered and 0 where it isn't, the number of entries, and the
// 64 entries.
fn put_layers(answer: &mut [u64], layers: Result<Layers, Refusal>)
    requires { 66 ≤ length answer.old }
    ensures { answer.new ≡ over (layers_words layers) answer.old }
{
    let (layered, found) = match layers {
        Ok(Layers::Layered(found)) => (1, found),
        Ok(Layers::Ring(found)) => (0, found),
        Err(_) => return put(answer, &[0; 66]),
    };
    let front = [layered, found.count as u64];
    put(answer, &front);
    put(&mut answer[2..], &found.entries);
}

// Puts what writing a text answers to words: its length.
fn put_length(answer: &mut [u64], written: Result<usize, Refusal>)
    requires { 1 ≤ length answer.old }
    ensures { answer.new ≡ over (length_words written) answer.old }
{
    let length = written.unwrap_or(0);
    put(answer, &[length as u64]);
}

// Reads a case file into five lent tables. Answer: the line of a refusal, then the 23 words of the case record.
#[unsafe(no_mangle)]
pub extern "C" fn causes_read(
    file: &[u8],
    clauses: &mut [u64],
    constraints: &mut [u64],
    formula: &mut [u8],
    names: &mut [u8],
    prices: &mut [u32],
    answer: &mut [u64],
) -> u32
    ensures { ReadOut file.now
        (lent clauses.old constraints.old formula.old names.old
        prices.old)
        (lent clauses.new constraints.new formula.new names.new
        prices.new)
        answer.old result answer.new }
{
    if answer.len() < 24 {
        return TOO_FEW;
    }
    let found = reader::read::read(file, clauses, constraints, formula, names, prices);
    put_found(answer, found);
    number_read(found)
}

// Settles one setting of a case. Answer: the true atoms, the false atoms, the rounds, the number of decided atoms.
#[unsafe(no_mangle)]
pub extern "C" fn causes_settle(
    fields: &[u64],
    clauses: &[u64],
    constraints: &[u64],
    formula: &[u8],
    setting: u64,
    answer: &mut [u64],
) -> u32
    ensures { SettleOut fields.now clauses.now constraints.now
        formula.now
        setting answer.old result answer.new }
{
    if fields.len() < CASE_WORDS || answer.len() < 4 {
        return TOO_FEW;
    }
    let tables = Tables {
        clauses,
        constraints,
        formula,
    };
    let settled = settle::operation::settle_one(case_in(fields), tables, setting);
    put_settled(answer, settled);
    number(settled)
}

// Answers the question of a case, with a lent list and work area. Answer: the 16 verdict numbers, the number of minimal
// explanations, how many are listed, the rounds and the decided atoms over all settings, the lowest cost among the
// minimal explanations and the lowest-numbered minimal setting that has it.
#[unsafe(no_mangle)]
pub extern "C" fn causes_question(
    fields: &[u64],
    clauses: &[u64],
    constraints: &[u64],
    formula: &[u8],
    prices: &[u32],
    list: &mut [u16],
    work: &mut [u8],
    answer: &mut [u64],
) -> u32
    ensures { QuestionOut fields.now clauses.now constraints.now
        formula.now prices.now
        list.old work.old answer.old result list.new work.new
        answer.new }
{
    if fields.len() < CASE_WORDS || answer.len() < 22 {
        return TOO_FEW;
    }
    let tables = Tables {
        clauses,
        constraints,
        formula,
    };
    let asked = question::operation::ask(case_in(fields), tables, prices, list, work);
    put_asked(answer, asked);
    number(asked)
}

// Answers the layers of a case, or a ring. Answer: 1 where the case is layered and 0 where it isn't, the number of
// entries, and 64 entries: the least number of each atom or the atoms of a ring, zeros behind.
#[unsafe(no_mangle)]
pub extern "C" fn causes_layers(
    fields: &[u64],
    clauses: &[u64],
    constraints: &[u64],
    formula: &[u8],
    answer: &mut [u64],
) -> u32
    ensures { LayersOut fields.now clauses.now constraints.now
        formula.now
        answer.old result answer.new }
{
    if fields.len() < CASE_WORDS || answer.len() < 66 {
        return TOO_FEW;
    }
    let tables = Tables {
        clauses,
        constraints,
        formula,
    };
    let layers = layering::operation::layers(case_in(fields), tables);
    put_layers(answer, layers);
    number(layers)
}

// Writes a case back as a file to a lent output. Answer: the length of the text.
#[unsafe(no_mangle)]
pub extern "C" fn causes_write(
    fields: &[u64],
    clauses: &[u64],
    constraints: &[u64],
    formula: &[u8],
    names: &[u8],
    prices: &[u32],
    out: &mut [u8],
    answer: &mut [u64],
) -> u32
    ensures { WriteOut fields.now
        (lent clauses.now constraints.now formula.now names.now
        prices.now)
        out.old answer.old result out.new answer.new }
{
    if fields.len() < CASE_WORDS || answer.len() < LENGTH_WORDS {
        return TOO_FEW;
    }
    let tables = LentTables {
        clauses,
        constraints,
        formula,
        names,
        prices,
    };
    let written = writing::operation::write(case_in(fields), tables, out);
    put_length(answer, written);
    number(written)
}

// Writes the report of a file's bytes to a lent output. Answer: the length of the text.
#[unsafe(no_mangle)]
pub extern "C" fn causes_report(file: &[u8], out: &mut [u8], answer: &mut [u64]) -> u32
    ensures { ReportOut file.now out.old answer.old result out.new
        answer.new }
{
    if answer.len() < LENGTH_WORDS {
        return TOO_FEW;
    }
    let written = report::operation::report(file, out);
    put_length(answer, written);
    number(written)
}

// Writes the case file that follows from a seed, with so many atoms and clauses, to a lent output. Answer: the length
// of the text.
#[unsafe(no_mangle)]
pub extern "C" fn causes_generate(
    seed: u32,
    atoms: u64,
    clauses: u64,
    out: &mut [u8],
    answer: &mut [u64],
) -> u32
    ensures { GenerateOut seed atoms clauses out.old answer.old result out.new
        answer.new }
{
    if answer.len() < LENGTH_WORDS {
        return TOO_FEW;
    }
    let written = loading::operation::generate(seed, atoms, clauses, out);
    put_length(answer, written);
    number(written)
}
