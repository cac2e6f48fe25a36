//! Laws on replies. Each is a function that does nothing, and its contract is the law.
ghost use Rattle.std.specs.Prelude.{◌≡◌, [], List, ℕ, Option, Err, None};
ghost use Rattle.staat_edge.specs.Files.{bytes_of};
ghost use Rattle.staat_edge.specs.Fitting.{Fit};
ghost use Rattle.staat_edge.specs.Own.{files_of};
ghost use Rattle.staat_fault.specs.declared.fault.Fault.TheVariants.{ReadFault};
ghost use Rattle.staat_words.specs.declared.request.Request.{Request as RequestValue};
ghost use Rattle.staat_input.specs.Causes.{ShelfSide};
ghost use Rattle.staat_input.specs.Work.{Files};
ghost use Rattle.staat_top.specs.Headline.{Headline};
ghost use Rattle.staat_top.specs.Named.{AreNamedOnce};
ghost use Rattle.staat_top.specs.Replies.{HasOneReply, IsReply, Reply, WorkOnWords};
ghost use Rattle.staat_top.specs.Runs.{Ran, SinkSide};

/// What `check` calls valid keeps the written rules, and the other way round; what a valid plan and a valid refusal
/// show; that `plan` prints a plan that takes all parts apart, or parts that are stuck, for all sound parts within its
/// limits; that `check` calls the certificate valid that `plan` prints; that `decide` prints a plan that takes all
/// parts of a product apart, or what is stuck; and of `confirm` and the short certificates that `decide` prints what
/// is said of `check` and those of `plan`.
pub fn headline()
    ensures { Headline }
{}

/// There is one reply at most to a request over some files, unless it asks for any plan that is good.
pub fn one_reply()
    ensures { (asked : Option RequestValue) (files : Files) (r s : Reply) → HasOneReply asked →
        IsReply asked files r → IsReply asked files s → r ≡ s }
{}

/// Where the work comes to a file that is to be read next and is not held, there is no reply.
pub fn no_reply()
    ensures { (asked : Option RequestValue) (files : Files) (name : List ℕ) (r : Reply) →
        WorkOnWords asked files (Err (ReadFault name)) → bytes_of name files ≡ None →
        IsReply asked files r → ⊥ }
{}

/// In every run in which no file is named twice there are files that fit: over a shelf that opened none before and does
/// not tell what it holds, as a disk, those that the reads gave. So what is said of all files that fit says something.
pub fn own_run()
    ensures { (asked : Option RequestValue) (shelf : ShelfSide) (out err : SinkSide) (status : ℕ) →
        Ran asked shelf out err status → shelf.old.given ≡ [] → shelf.new.holds ≡ None →
        AreNamedOnce asked shelf.new.given → Fit shelf.new (files_of shelf.new.given) }
{}
