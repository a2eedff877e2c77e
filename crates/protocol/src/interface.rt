// The calls of the C interface but for the units, which `protocol_c` exports: each function is total over slices, answers a number of
// the table, and neither allocates nor keeps a pointer. All but `pair_run` name a set.
// Stays with numbers, and with counts and places behind references: the C interface, which `protocol_c` exports as it is.
ghost use Rattle.std.specs.Prelude.{◌≡◌, ◌*◌, length, take};
ghost use Rattle.numbers.specs.Number.{output, reported};
ghost use Rattle.numbers.specs.Sets.{number_in};
ghost use Rattle.source_model.specs.Disjoint.{DisjointDraws};
ghost use Rattle.elimination_model.specs.Tie.{entry_count};
ghost use Rattle.matrix_model.specs.File.{layout_of, check_number, read_number, write_number, read_output, write_output};
ghost use Rattle.matrix_model.specs.Ties.{tie_of_file, OnlyTieOfFile, tie_number};
ghost use Rattle.matrix_model.specs.TiedRowsEvidence.{TiedRowsEvidence};
ghost use Rattle.pair_model.specs.Scheme.{files, no_files};
ghost use Rattle.pair_model.specs.Base.{scheme_of, InEachSet, base};
ghost use Rattle.pair_model.specs.Frame.{shared_parameters};
ghost use Rattle.pair_model.specs.Sampler.{sampled, next_pair, sample_conditions};
ghost use Rattle.pair_model.specs.Dealer.{dealt, deal_conditions, deal_source_conditions, TakesAccepted};
ghost use Rattle.pair_model.specs.Run.{protocol};
ghost use Rattle.pair_model.specs.Theorem.{Privacy};
ghost use Rattle.pair_model.specs.Evaluator.{code, evaluate_conditions};
ghost use Rattle.pair_model.specs.Join.{join_conditions, joined};
ghost use Rattle.pair_model.specs.WholeRun.{run_number, run_code};

use matrix::file::{matrix_check, matrix_read, matrix_write};
use matrix::ties::matrix_tied_rows;
use numbers::refusal::answer_number;
use pair_counter::evaluator::evaluate;
use pair_counter::join::join;
use pair_dealer::dealer::{deal, deal_source};
use pair_sampler::sampler::sample;
use pair_whole::run::run;

// The matrix check: the number of a file.
pub fn pair_matrix_check(set: u32, file: &[u8]) -> u32
    ensures { result ≡ check_number set file.now }
{
    answer_number(matrix_check(set, file))
}

// The file of rows.
pub fn pair_matrix_write(set: u32, rows: &[u8], out: &mut [u8]) -> u32
    ensures result { result ≡ write_number set rows.now (length out.old) }
    ensures output { out.new ≡ write_output set rows.now out.old }
{
    answer_number(matrix_write(set, rows, out))
}

// The rows of a file.
pub fn pair_matrix_read(set: u32, file: &[u8], out: &mut [u8]) -> u32
    ensures result { result ≡ read_number set file.now (length out.old) }
    ensures output { out.new ≡ read_output set file.now out.old }
{
    answer_number(matrix_read(set, file, out))
}

// The list of the rows of a file that are tied, each with its digit, and how many they are.
pub fn pair_tied_rows(set: u32, file: &[u8], out: &mut [u8], count: &mut u64) -> u32
    ensures result { result ≡ tie_number set file.now (length out.old) }
    ensures count { count.new ≡ reported result (entry_count (tie_of_file (layout_of set) file.now)) }
    ensures output { out.new ≡ output result (tie_of_file (layout_of set) file.now) out.old }
    ensures only_tie { result ≡ 0 → OnlyTieOfFile (layout_of set) file.now (take (2 * count.new) out.new) }
    ensures evidence { TiedRowsEvidence }
{
    let tied = matrix_tied_rows(set, file, out);
    *count = tied.unwrap_or(0);
    answer_number(tied)
}

// The code of a key and a label.
pub fn pair_evaluate(set: u32, key: &[u8], label: &[u8], file: &[u8], out: &mut [u8]) -> u32
    ensures result { result ≡ number_in set (evaluate_conditions (scheme_of set) key.now label.now (files file.now) (length out.old)) }
    ensures output { out.new ≡
        output result (code (scheme_of set) key.now label.now (files file.now)) out.old }
{
    answer_number(evaluate(set, key, label, file, out))
}

// A tape from source bytes, drawn from a starting pair on, and the next unread pair.
pub fn pair_sample(set: u32, start: u64, source: &[u8], out: &mut [u8], next: &mut u64) -> u32
    ensures result { result ≡ number_in set (sample_conditions (scheme_of set) source.now start (length out.old)) }
    ensures next { next.new ≡ reported result (next_pair (scheme_of set) source.now start) }
    ensures output { out.new ≡ output result (sampled (scheme_of set) source.now start) out.old }
    ensures disjoint { DisjointDraws }
{
    let sampled = sample(set, start, source, out);
    *next = sampled.unwrap_or(0);
    answer_number(sampled)
}

// Both deal frames of a tape.
pub fn pair_deal(set: u32, session: u32, line: u8, tape: &[u8], out: &mut [u8]) -> u32
    ensures result { result ≡ number_in set (deal_conditions (scheme_of set) no_files tape.now (length out.old)) }
    ensures output { out.new ≡ output result (dealt (scheme_of set) (shared_parameters session line) no_files tape.now) out.old }
    ensures accepted_tapes { InEachSet TakesAccepted }
    ensures privacy { InEachSet (λ S. Privacy (protocol S)) }
{
    answer_number(deal(set, session, line, tape, out))
}

// Both deal frames from source bytes, drawn from a starting pair on, and the next unread pair.
pub fn pair_deal_source(
    set: u32,
    session: u32,
    line: u8,
    start: u64,
    source: &[u8],
    out: &mut [u8],
    next: &mut u64,
) -> u32
    ensures result { result ≡ number_in set (deal_source_conditions (scheme_of set) no_files source.now start (length out.old)) }
    ensures next { next.new ≡ reported result (next_pair (scheme_of set) source.now start) }
    ensures output { out.new ≡
        output result (dealt (scheme_of set) (shared_parameters session line) no_files (sampled (scheme_of set) source.now start)) out.old }
    ensures disjoint { DisjointDraws }
    ensures privacy { InEachSet (λ S. Privacy (protocol S)) }
{
    let dealt = deal_source(set, session, line, start, source, out);
    *next = dealt.unwrap_or(0);
    answer_number(dealt)
}

// The code of two share frames, side 0's first.
pub fn pair_join(set: u32, first: &[u8], second: &[u8], out: &mut [u8]) -> u32
    ensures result { result ≡ number_in set (join_conditions (scheme_of set) first.now second.now (length out.old)) }
    ensures output { out.new ≡ output result (joined (scheme_of set) first.now second.now) out.old }
{
    answer_number(join(set, first, second, out))
}

// The lowest number over all of the input, or 0 and the code, by running the dealer and both units of set 1 in session 1 and line 0.
pub fn pair_run(input: &[u8], out: &mut [u8]) -> u32
    ensures result { result ≡ run_number input.now (length out.old) }
    ensures output { out.new ≡ output result (run_code base input.now) out.old }
{
    answer_number(run(input, out))
}
