ghost use Rattle.grid.specs.BookingLaws.{BookingsStand};
ghost use Rattle.grid.specs.SectionLaws.{SectionsStand};

// When a booking is carried out.
pub fn bookings_stand()
    ensures { BookingsStand }
{}

// What the answer on a section's gauges means, and which place a no names.
pub fn sections_stand()
    ensures { SectionsStand }
{}
