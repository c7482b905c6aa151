// The laws of the survey, for every grid, every string of bits, and every side, level count and plane count.
ghost use Rattle.speck.specs.Laws.{AskingGivesSurvey, OnePlace, OnePlaneCount, QuestionIsNext, QuestionsAboutGrid, RefusedExactly, SignificanceByParts, SignificanceLiteral, SurveyLength, SurveyOfCells};
ghost use Rattle.speck.specs.Places.{PlacesSuffice};
ghost use Rattle.speck.specs.Receiver.{NearAfterEveryBit, SurveyGivesGrid, WholeIsSurvey};

pub fn laws()
    ensures asking_gives_the_survey { AskingGivesSurvey }
    ensures question_is_next { QuestionIsNext }
    ensures questions_are_about_the_grid { QuestionsAboutGrid }
    ensures surveys_speak_of_cells_alone { SurveyOfCells }
    ensures surveys_give_grids { SurveyGivesGrid }
    ensures wholes_are_surveys { WholeIsSurvey }
    ensures refused_exactly { RefusedExactly }
    ensures near_after_every_bit { NearAfterEveryBit }
    ensures one_place { OnePlace }
    ensures at_most_86101_bits { SurveyLength }
    ensures one_plane_count { OnePlaneCount }
    ensures significance_is_literal { SignificanceLiteral }
    ensures significance_by_quarters { SignificanceByParts }
    ensures places_suffice { PlacesSuffice }
{}
