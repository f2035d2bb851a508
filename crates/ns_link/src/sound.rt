//! Laws of the code of programs. Each function does nothing, and its contract is the law.

ghost use Rattle.std.specs.Prelude.{◌≡◌, ◌≢◌, ◌≤◌, None, All, length};
ghost use Rattle.std.specs.List.{AllPairs};
ghost use Rattle.ns_scope.specs.declared.program.Program.{Program};
ghost use Rattle.ns_scope.specs.Whole.{IsWhole};
ghost use Rattle.ns_static.specs.Check.{IsFaultless};
ghost use Rattle.ns_code.specs.Fits.{IsWord, IsFileName, IsName, IsShort, ClassFits, Fits};
ghost use Rattle.ns_resolved.specs.Classes.{meant};
ghost use Rattle.ns_gen_code.specs.Code.{code_of};
ghost use Rattle.ns_gen_code.specs.Sizes.{size_fault};
ghost use Rattle.ns_verify.specs.Verify.{IsSound};
ghost use Rattle.ns_link.specs.Accepted.{IsAccepted};
ghost use Rattle.ns_link.specs.Numbers.{NumbersFit};
ghost use Rattle.ns_link.specs.Spoken.{NamesFit};

/// The code of a whole program without static faults whose sizes are within their limits is sound.
pub fn code_is_sound()
    ensures { (program : Program) → IsWhole program → IsFaultless program → size_fault (code_of (meant program)) ≡ None →
        IsSound (code_of (meant program)) }
{
    crate::right::whole_programs_are_right();
    ns_gen_code::laws::right_programs_have_sound_code();
}

/// The tables of an accepted program's code are within their limits; the names of its files are
/// text, and its names are different.
pub fn tables_are_small()
    ensures file_count { (program : Program) → IsAccepted program → length (code_of (meant program)).files ≤ 17 }
    ensures files { (program : Program) → IsAccepted program → All IsFileName (code_of (meant program)).files }
    ensures name_count { (program : Program) → IsAccepted program → length (code_of (meant program)).names ≤ 65536 }
    ensures names_differ { (program : Program) → IsAccepted program → AllPairs (λ a b. a ≢ b) (code_of (meant program)).names }
    ensures class_count { (program : Program) → IsAccepted program → length (code_of (meant program)).classes ≤ 4096 }
    ensures body_count { (program : Program) → IsAccepted program → length (code_of (meant program)).bodies ≤ 65536 }
{
    ns_resolved::laws::used_names_have_numbers();
    crate::right::classes_and_members_are_few();
}

/// The records of the classes of an accepted program fit their fields, and so do the numbers of its
/// bodies and of their instructions; its literal texts are fewer than instructions.
pub fn numbers_fit()
    ensures text_count { (program : Program) → IsAccepted program → IsWord (length (code_of (meant program)).texts) }
    ensures classes { (program : Program) → IsAccepted program → All ClassFits (code_of (meant program)).classes }
    ensures bodies { (program : Program) → IsAccepted program → All NumbersFit (code_of (meant program)).bodies }
{
    crate::right::whole_programs_are_right();
    crate::right::classes_and_members_are_few();
    ns_gen_code::laws::bodies_have_their_code();
    ns_gen_code::laws::names_and_texts_stand_in_order();
    ns_gen_code::laws::bodies_end();
    ns_gen_code::laws::lines_use_what_is_there();
}

/// The names of an accepted program's code are the texts of selectors, and its literal texts are
/// not too long. The locals of its bodies have names, and its places are in its files.
pub fn names_and_places_are_there()
    ensures names { (program : Program) → IsAccepted program → All IsName (code_of (meant program)).names }
    ensures texts { (program : Program) → IsAccepted program → All IsShort (code_of (meant program)).texts }
    ensures bodies { (program : Program) → IsAccepted program → All (NamesFit (length (code_of (meant program)).files))
        (code_of (meant program)).bodies }
{
    crate::right::whole_programs_are_right();
    crate::right::classes_and_members_are_few();
    ns_gen_code::laws::bodies_have_their_code();
    ns_gen_code::laws::names_and_texts_stand_in_order();
    ns_gen_code::laws::bodies_end();
    ns_gen_code::laws::lines_use_what_is_there();
}

/// The code of a whole program without static faults whose sizes are within their limits fits its
/// fields.
pub fn code_fits()
    ensures { (program : Program) → IsWhole program → IsFaultless program → size_fault (code_of (meant program)) ≡ None →
        Fits (code_of (meant program)) }
{
    tables_are_small();
    numbers_fit();
    names_and_places_are_there();
}
