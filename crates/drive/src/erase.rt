// ERASE.
ghost use Rattle.std.specs.Prelude.{◌≡◌, [], is_some};
ghost use Rattle.rules.specs.Model.{Erase};
ghost use Rattle.drive.specs.Checks.{first_fault};
ghost use Rattle.drive.specs.Erasing.{Finds, GivesBack, Removes, TriesErasing, Unlists, after_look_up, before_look_up};
ghost use Rattle.drive.specs.Serves.{ServesAlone};
ghost use Rattle.drive.specs.Units.{any_named};

use crate::answer::Answer;
use crate::drive::Drive;
use chains::{Located, clear_entry, free_chain, is_legal_name, look_up, read_descriptor, save_map};
use device::{Code, Fault, Layer, WritingDevice};
use freespace::SectorAllocator;

impl<D: WritingDevice, A: SectorAllocator> Drive<D, A> {
    // Removes a file that no unit holds: its sectors are free again, and its place in the directory is empty.
    pub fn erase(&mut self, name: &[u8]) -> Answer
        ensures { ServesAlone D.ReadingDevice A.SectorAllocator (Erase name.now) self.old result [] self.new }
    {
        self.try_erase(name).into()
    }

    fn try_erase(&mut self, name: &[u8]) -> Result<(), Fault>
        ensures { TriesErasing D.ReadingDevice A.SectorAllocator name.now self.old result self.new }
    {
        let file = self.find_erasable(name)?;
        self.remove_file(file)
    }

    // The file of this name, after all of ERASE's refusals in their order; only the directory tells whether it is there.
    fn find_erasable(&mut self, name: &[u8]) -> Result<Located, Fault>
        ensures { Finds D.ReadingDevice name.now self.old result self.new }
    {
        self.check_erase(name)?;
        let lookup = look_up(&mut self.device, name)?;
        let file = lookup
            .file
            .ok_or(Fault::new(Layer::Request, Code::FileNotFound))?;
        self.check_unused(name)?;
        Ok(file)
    }

    // The refusals that need no look at the directory.
    fn check_erase(&self, name: &[u8]) -> Result<(), Fault>
        ensures { result ≡ first_fault (before_look_up (is_some self.now.state.disk) (D.ReadingDevice.medium self.now.device).door name.now) }
    {
        if self.state.disk.is_none() {
            return Err(Fault::new(Layer::Request, Code::NotInitialized));
        }
        self.device.check_door()?;
        if !is_legal_name(name) {
            return Err(Fault::new(Layer::Request, Code::BadName));
        }
        Ok(())
    }

    // The refusals of a file that is there.
    fn check_unused(&self, name: &[u8]) -> Result<(), Fault>
        ensures { result ≡ first_fault (after_look_up (any_named name.now self.now.state.units) (D.ReadingDevice.medium self.now.device).tab) }
    {
        if self.state.some_holds(name) {
            return Err(Fault::new(Layer::Request, Code::AlreadyOpen));
        }
        self.device.check_tab()
    }

    fn remove_file(&mut self, file: Located) -> Result<(), Fault>
        ensures { Removes D.ReadingDevice A.SectorAllocator file self.old result self.new }
    {
        self.give_back_file(file)?;
        self.unlist_file(file.place)
    }

    // Gives back the sectors of the file's records and of its descriptor; the disk stays as it is.
    fn give_back_file(&mut self, file: Located) -> Result<(), Fault>
        ensures medium { D.ReadingDevice.medium self.new.device ≡ D.ReadingDevice.medium self.old.device }
        ensures state { self.new.state ≡ self.old.state }
        ensures span { A.SectorAllocator.span self.new.allocator ≡ A.SectorAllocator.span self.old.allocator }
        ensures freed { GivesBack D.ReadingDevice A.SectorAllocator file self.old result self.new }
    {
        let fields = read_descriptor(&mut self.device, file.descriptor)?;
        free_chain(
            &mut self.device,
            &mut self.allocator,
            fields.first,
            fields.count,
        )?;
        self.allocator.give(file.descriptor);
        Ok(())
    }

    // Empties the file's place in the directory, and saves the map without the file.
    fn unlist_file(&mut self, place: u16) -> Result<(), Fault>
        ensures allocator { self.new.allocator ≡ self.old.allocator }
        ensures after { Unlists D.ReadingDevice A.SectorAllocator place self.old result self.new }
    {
        clear_entry(&mut self.device, place)?;
        save_map(&mut self.device, &self.allocator)?;
        self.state.lose_file();
        Ok(())
    }
}
