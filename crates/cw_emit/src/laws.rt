//! Laws of woven texts: what a text stands for. The functions do nothing: their contracts are the laws.

ghost use Rattle.std.specs.Prelude.{◌≡◌, ℕ, List, map};
ghost use Rattle.cw_rights.specs.Policies.{PlainPolicy};
ghost use Rattle.cw_syntax.specs.Marks.{SeamMark};
ghost use Rattle.cw_certs.specs.Tables.{Table};
ghost use Rattle.cw_table_text.specs.TablesText.{tables_text};
ghost use Rattle.cw_emit.specs.Woven.{StandsPlainly, placed};

/// A text stands for one source.
pub fn one_source()
    ensures { (text source other : List ℕ) (marks others : List SeamMark) (table table2 : Table) (policy policy2 : PlainPolicy) → StandsPlainly text source marks table policy → StandsPlainly text other others table2 policy2 → source ≡ other }
{}

/// For one policy, the lines of the table are the same in all that a text stands for.
pub fn one_table_text()
    ensures { (text source other : List ℕ) (marks others : List SeamMark) (table table2 : Table) (policy : PlainPolicy) → StandsPlainly text source marks table policy → StandsPlainly text other others table2 policy → tables_text policy table ≡ tables_text policy table2 }
{}

/// For one policy, the marks stand at the same places and are spelled alike in all that a text stands for.
pub fn one_list_of_marks()
    ensures { (text source other : List ℕ) (marks others : List SeamMark) (table table2 : Table) (policy : PlainPolicy) → StandsPlainly text source marks table policy → StandsPlainly text other others table2 policy → map (placed policy source) marks ≡ map (placed policy other) others }
{}
