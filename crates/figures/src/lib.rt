// Worked figures: what the definitions of the machine give in cases that were worked by hand. The checker computes each.
#![tactic(auto)]

ghost use Rattle.std.specs.Prelude.{◌≡◌, ℕ, true, false, pos, neg_ℤ, List, [], ◌∷◌, ◌++◌, map, replicate};
ghost use Rattle.words.specs.Words.{upper_half, lower_half};
ghost use Rattle.words.specs.Sums.{difference, integer_of, sum};
ghost use Rattle.words.specs.Shifts.{shifted_right_with_sign, turned_left};
ghost use Rattle.words.specs.Scale.{scale_factor};
ghost use Rattle.stores.specs.Parity.{half_of};
ghost use Rattle.processor.specs.declared.outcome.Ending.TheVariants.{Spent, Interrupted};
ghost use Rattle.processor.specs.declared.report.ReferenceKind.TheVariants.{Fetch, Write};
ghost use Rattle.processor.specs.declared.report.Report.TheVariants.{IllegalInstruction, Protection, ExecutiveReturn};
ghost use Rattle.processor.specs.Reports.{relative, told_by};
ghost use Rattle.engine.specs.declared.answer.Answer.TheVariants.{Admitted, Looked, Retired, Saved};
ghost use Rattle.engine.specs.declared.answer.State.TheVariants.{Held, Ready};
ghost use Rattle.engine.specs.declared.call.Call.{Call};
ghost use Rattle.engine.specs.declared.call.Call.TheVariants.{Ask, Retire};
ghost use Rattle.engine.specs.declared.call.Request.TheVariants.{Restore, Run, Save, Tell};
ghost use Rattle.engine.specs.Exchanges.{answers_in, calls_in, exchanges};
ghost use Rattle.engine.specs.Isolation.{Admits, History, TakenAdmit, answers_to, calls_for, exchanges_with, history, nothing_after_retire, words_found, words_of, would_tell};
ghost use Rattle.engine.specs.Laws.{Has};
ghost use Rattle.engine.specs.Replayed.{paired};
ghost use Rattle.records.specs.Registers.{starting_at};
ghost use Rattle.figures.specs.Histories.{IsIsolatedFromIt, LivesLikeIt, alone_admit, alone_calls, alone_row, beside_admit, beside_calls, beside_last, beside_later, beside_row, beside_whole, fixed_addresses, its_calls, its_terms, its_words, its_words_later, life, refusals, seven_in_b2};
ghost use Rattle.engine.specs.Installation.{made};
ghost use Rattle.store.specs.Cells.{Cell};
ghost use Rattle.store.specs.declared.half.Half.TheVariants.{Lower};
ghost use Rattle.figures.specs.Programs.{adding, admit, asked, called, cells, counting, half_spoiled, illegal, jumping, look, number, number_at, number_of_half, ran, record_with, reference, refusal_told, scaling, shifting, told};

// Does nothing: its contract is all there is to it.
pub fn worked_figures()
    ensures upper_half { upper_half 0o1234567012 ≡ 0o12345 }
    ensures lower_half { lower_half 0o1234567012 ≡ 0o67012 }
    ensures three_minus_five { difference 3 5 ≡ 0o7777777775 }
    ensures minus_two { integer_of 30 0o7777777775 ≡ neg_ℤ (pos 2) }
    ensures five_and_minus_five { sum 5 0o7777777772 ≡ 0 }
    ensures minus_zero_twice { sum 0o7777777777 0o7777777777 ≡ 0o7777777777 }
    ensures largest_and_one { sum 0o3777777777 1 ≡ 0o4000000000 }
    ensures scale_factor_of_one { scale_factor 1 ≡ 28 }
    ensures one_scaled { turned_left 30 1 (scale_factor 1) ≡ 0o2000000000 }
    ensures sign_filled { shifted_right_with_sign 30 0o4000000000 29 ≡ 0o7777777777 }
    ensures spoiled_zero { half_of 0 ≡ record { value = 0; good = false } }
    ensures spoiled_three { half_of 3 ≡ record { value = 3; good = false } }
    ensures good_zero { half_of 32768 ≡ record { value = 0; good = true } }
    ensures good_three { half_of 32771 ≡ record { value = 3; good = true } }
    ensures scaling { asked 8 scaling (Run 2 ∷ Tell ∷ []) ≡ Admitted (Ok tt) ∷ ran 2 Spent ∷ told Ready 0o2000000000 28 2 ∷ [] }
    ensures shifting { asked 8 shifting (Run 2 ∷ Tell ∷ []) ≡ Admitted (Ok tt) ∷ ran 2 Spent ∷ told Ready 0o7777777777 0 2 ∷ [] }
    ensures counting { asked 8 counting (Run 2 ∷ Tell ∷ []) ≡ Admitted (Ok tt) ∷ ran 2 Spent ∷ told Ready 2 3 3 ∷ [] }
    ensures adding { asked 8 adding (Run 10 ∷ Tell ∷ look 7 ∷ []) ≡ Admitted (Ok tt) ∷ ran 4 (Interrupted (ExecutiveReturn (relative 10))) ∷ told (Held (ExecutiveReturn (relative 10))) 8 0 4 ∷ Looked (Ok 8) ∷ [] }
    ensures adding_in_7_words { asked 7 adding (Run 10 ∷ Tell ∷ []) ≡ Admitted (Ok tt) ∷ ran 3 (Interrupted (Protection (reference Write 7))) ∷ told (Held (Protection (reference Write 7))) 8 0 3 ∷ [] }
    ensures two_steps { asked 8 adding (Run 2 ∷ Tell ∷ []) ≡ Admitted (Ok tt) ∷ ran 2 Spent ∷ told Ready 8 0 2 ∷ [] }
    ensures two_steps_in_7_words { asked 7 adding (Run 2 ∷ Tell ∷ []) ≡ Admitted (Ok tt) ∷ ran 2 Spent ∷ told Ready 8 0 2 ∷ [] }
    ensures jumping { asked 8 jumping (Run 10 ∷ Tell ∷ []) ≡ Admitted (Ok tt) ∷ ran 2 (Interrupted (Protection (reference Fetch 8))) ∷ told (Held (Protection (reference Fetch 8))) 0 0 8 ∷ [] }
    ensures illegal { asked 8 illegal (Run 10 ∷ Tell ∷ []) ≡ Admitted (Ok tt) ∷ ran 1 (Interrupted (IllegalInstruction (relative 0))) ∷ told (Held (IllegalInstruction (relative 0))) 0 0 1 ∷ [] }
    ensures saved { called 6 (admit 0 0 6 5 ∷ Ask 0 (Save (replicate 29 255)) ∷ []) ≡ Admitted (Ok tt) ∷ Saved (Ok tt) (0x00 ∷ 0x1B ∷ 0x01 ∷ replicate 22 0 ++ 0x00 ∷ 0x00 ∷ 0x00 ∷ 0x05 ∷ []) ∷ [] }
    ensures to_the_last_cell { map refusal_told (called 64 (admit 0 60 5 0 ∷ admit 0 60 4 0 ∷ [])) ≡ number 5 ∷ None ∷ [] }
    ensures side_by_side { map refusal_told (called 64 (admit 0 0 8 0 ∷ admit 1 7 1 0 ∷ admit 1 8 1 0 ∷ [])) ≡ None ∷ number 6 ∷ None ∷ [] }
    ensures wide_field { map refusal_told (called 8 (admit 0 0 8 0 ∷ Ask 0 (Restore (record_with 17 128)) ∷ [])) ≡ None ∷ number_at 18 17 ∷ [] }
    ensures spoiled_look { map refusal_told (answers_in (exchanges (made (half_spoiled ∷ [])) (admit 0 0 1 0 ∷ Ask 0 (look 0) ∷ []))) ≡ None ∷ number_of_half 19 Lower ∷ [] }
    ensures life { exchanges (made (cells 16 [])) (calls_in life) ≡ life }
    ensures refusals { exchanges (made (cells 16 [])) (calls_in refusals) ≡ refusals }
    ensures fixed_addresses { exchanges (made []) (calls_in fixed_addresses) ≡ fixed_addresses }
    ensures paired_again { paired (calls_in life) (answers_in life) ≡ life }
    ensures alone { Admits 0 its_terms (history alone_row alone_calls) alone_admit }
    ensures beside { Admits 0 its_terms (history beside_row beside_calls) beside_admit }
    ensures goes_on { exchanges (made beside_row) (calls_in beside_whole) ≡ beside_whole }
    ensures with_it { exchanges_with 0 (beside_later ++ beside_last) ≡ its_calls ++ record { call = Retire 0; answer = Retired (Ok tt) } ∷ [] }
    ensures calls_for { calls_for 0 its_terms beside_admit ≡ calls_in its_calls }
    ensures answers_to { answers_to 0 its_terms beside_admit ≡ answers_in its_calls }
    ensures found_alone { words_found 0 its_terms (history alone_row alone_calls) alone_admit ≡ its_words }
    ensures found_beside { words_found 0 its_terms (history beside_row beside_calls) beside_admit ≡ its_words }
    ensures told_alone { would_tell 0 (history alone_row alone_calls).left ≡ seven_in_b2 }
    ensures told_beside { would_tell 0 (history beside_row beside_calls).left ≡ seven_in_b2 }
    ensures words_alone { words_of 0 its_terms alone_admit (history alone_row alone_calls).left.row ≡ its_words_later }
    ensures words_beside { words_of 0 its_terms beside_admit (history beside_row beside_calls).left.row ≡ its_words_later }
    ensures isolated { (h : History) (b : TakenAdmit) → LivesLikeIt h b }
    ensures isolation { (cells : ℕ → List Cell) (store : ℕ) (calls : List (Call (List ℕ))) → IsIsolatedFromIt cells store calls }
    ensures ends { nothing_after_retire 0 (Ask 0 Tell ∷ Retire 1 ∷ []) ≡ true }
    ensures ends_at_retire { nothing_after_retire 0 (Ask 0 Tell ∷ Retire 0 ∷ []) ≡ true }
    ensures goes_on_after_retire { nothing_after_retire 0 (Retire 0 ∷ Ask 1 Tell ∷ []) ≡ false }
    ensures first_cell { Has (record { limits = record { lower = 2; length = 3 }; registers = starting_at 0 }) 2 }
    ensures last_cell { Has (record { limits = record { lower = 2; length = 3 }; registers = starting_at 0 }) 4 }
    ensures executive_return_told { told_by (ExecutiveReturn (relative 10)) ≡ record { cause = 4; address = 10; kind = None; fault = None } }
    ensures write_protection_told { told_by (Protection (reference Write 7)) ≡ record { cause = 2; address = 7; kind = Some Write; fault = None } }
    ensures fetch_protection_told { told_by (Protection (reference Fetch 8)) ≡ record { cause = 2; address = 8; kind = Some Fetch; fault = None } }
    ensures illegal_told { told_by (IllegalInstruction (relative 0)) ≡ record { cause = 1; address = 0; kind = None; fault = None } }
{}
