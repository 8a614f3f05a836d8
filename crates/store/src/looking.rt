//! An archive that is only looked at, with an import set aside that is open on it.

ghost use Rattle.std.specs.Prelude.{◌≡◌, None};
ghost use Rattle.store.specs.Standing.{shuts};

use crate::archive::Archive;
use sqlite::Alter;
use staging::OpenImport;

impl<S: Alter> Archive<S> {
    /// Whether it takes no requests: an import is open on it, or it has to be opened again.
    pub fn is_shut(&self) -> bool
        ensures { result ≡ shuts self.now.is_lost self.now.import }
    {
        self.import.is_some() || self.is_lost
    }

    /// Before looks, which see nothing of an import that is open: takes it off the archive, and counts the looks that
    /// fail from 0. The import is to be put back before any other call.
    pub fn set_aside(&mut self) -> Option<OpenImport>
        ensures aside { result ≡ self.old.import }
        ensures none { self.new.import ≡ None }
        ensures counts { self.new.failures ≡ 0 }
        ensures conn { self.new.conn ≡ self.old.conn }
        ensures lost { self.new.is_lost ≡ self.old.is_lost }
    {
        self.failures = 0;
        self.import.take()
    }

    /// After the looks: puts the import back that was set aside.
    pub fn put_back(&mut self, import: Option<OpenImport>)
        ensures back { self.new.import ≡ import }
        ensures conn { self.new.conn ≡ self.old.conn }
        ensures lost { self.new.is_lost ≡ self.old.is_lost }
        ensures uncounted { self.new.failures ≡ self.old.failures }
    {
        self.import = import;
    }
}
