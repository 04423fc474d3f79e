//! Laws, each a function that does nothing and whose contract is the law.
ghost use Rattle.std.specs.Prelude.{◌≡◌, Some};
ghost use Rattle.tl_text.specs.Name.{name_of, operation_word};
ghost use Rattle.tl_text.specs.declared.words.TheConstants.{MAX_WORDS};
ghost use Rattle.tl_types.specs.declared.operation.AskOp.{AskOp};

/// The word that names an operation in traces names it in scripts, and no other.
pub fn names_are_read_back()
    ensures { (op : AskOp) → name_of (operation_word op) ≡ Some op }
{}

/// The limit in its number. The contract of `split_words` names the constant, so without this law a wrong constant
/// would change what it promises.
pub fn limits_in_numbers()
    ensures words { MAX_WORDS ≡ 6 }
{}
