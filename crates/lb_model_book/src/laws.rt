//! A law of the files of books.
ghost use Rattle.std.specs.Prelude.{◌≡◌, ℕ, List, [], Some, reverse};
ghost use Rattle.lb_model.specs.Journal.{content_of};
ghost use Rattle.lb_model.specs.declared.world.World.{World};
ghost use Rattle.lb_model_book.specs.Books.{book_pages, dvi_file, journal};
ghost use Rattle.lb_model_book.specs.PlainForm.{plain_names};
ghost use Rattle.lb_model_paper.specs.Dvi.{dvi};

/// The bytes that are put into a book's DVI file, one after another, are the DVI file of the world's
/// moment and the book's pages.
pub fn dvi_of_book()
    ensures { (world : World) (names : List (List ℕ)) → plain_names world ≡ Some names
        → content_of (dvi_file world) (journal world)
        ≡ Some (dvi world.moment (reverse (book_pages world [] names))) }
{}
